//! Encoding.

ghost use Rattle.std.specs.Prelude.{◌≡◌, ◌≤◌, ◌++◌, ◌∷◌, [], length, IfOk, OnOk};
ghost use Rattle.std.specs.Int.{w32, to_be_bytes};
ghost use Rattle.adopt_context.specs.Context.{AscendsFrom};
ghost use Rattle.message_code.specs.Decode.{IsEnvelope, HasContext};
ghost use Rattle.message_code.specs.Code.{variable_code, value_code, amount_code, list_code, context_code, bound_code, tag_of, fields_code, code_of};

use adopt_context::AgentContext;
use dcop_base::{Bytes, NoMemory, Val, VarId};
use protocol_steps::{Envelope, Message};
use std::alloc::Global;

/// The bytes that are reserved at first: enough for each message without a list.
const SMALL: usize = 32;

/// The code of an envelope. The contract also says that the envelope is within its ranges and that
/// the variables of its context ascend: [`decode`](crate::decode) needs both.
///
/// # Errors
///
/// [`NoMemory`] if memory runs out.
pub fn encode(alloc: Global, envelope: &Envelope) -> Result<Bytes, NoMemory>
    ensures code { IfOk result (λ bytes. bytes ≡ code_of envelope.now) }
    ensures ranges { OnOk result (IsEnvelope envelope.now) }
{
    let stamp = envelope.stamp;
    let mut out = Vec::with_capacity(alloc, SMALL)?;
    put_amount(&mut out, stamp)?;
    out.push(tag_of(&envelope.message))?;
    put_fields(&mut out, &envelope.message)?;
    Ok(Bytes::from_vec(out))
}

/// The tag of a message.
fn tag_of(message: &Message) -> u8
    ensures { result ≡ tag_of message.now }
{
    match message {
        Message::Token { .. } => 1,
        Message::Done { .. } => 2,
        Message::Util { .. } => 3,
        Message::ValueAll { .. } => 4,
        Message::Value { .. } => 5,
        Message::Cost { .. } => 6,
        Message::Threshold { .. } => 7,
        Message::Terminate { .. } => 8,
    }
}

/// Writes the fields of a message, in order.
fn put_fields(out: &mut Vec<u8>, message: &Message) -> Result<(), NoMemory>
    ensures fields { OnOk result (out.new.items ≡ out.old.items ++ fields_code message.now) }
    ensures context { OnOk result (HasContext message.now) }
{
    match message {
        Message::Token { path } => put_variables(out, path.as_slice()),
        Message::Done { visited } => put_variables(out, visited.as_slice()),
        Message::Util { scope, cells } => {
            put_variables(out, scope.as_slice())?;
            put_cells(out, cells.as_slice())
        }
        Message::ValueAll { values } => put_context(out, values),
        Message::Value { value } => put_value(out, *value),
        Message::Cost {
            context,
            lower,
            upper,
        } => {
            put_context(out, context)?;
            put_amount(out, *lower)?;
            put_bound(out, *upper)
        }
        Message::Threshold { amount, context } => {
            put_amount(out, *amount)?;
            put_context(out, context)
        }
        Message::Terminate { context } => put_context(out, context),
    }
}

/// Writes the number of items of a list in four bytes. They are the last four of the eight bytes of
/// its length: each list of a message has fewer than 2^32 items.
fn put_count(out: &mut Vec<u8>, count: usize) -> Result<(), NoMemory>
    ensures { OnOk result (out.new.items ≡ out.old.items ++ to_be_bytes w32 count) }
{
    let bytes = (count as u64).to_be_bytes();
    out.extend_from_slice(&bytes[4..])?;
    Ok(())
}

/// Writes a list of variables.
fn put_variables(out: &mut Vec<u8>, variables: &[VarId]) -> Result<(), NoMemory>
    ensures { OnOk result (out.new.items ≡ out.old.items ++ list_code variable_code variables.now) }
{
    put_count(out, variables.len())?;
    for variable in variables {
        put_variable(out, *variable)?;
    }
    Ok(())
}

/// Writes a list of amounts.
fn put_cells(out: &mut Vec<u8>, cells: &[u64]) -> Result<(), NoMemory>
    ensures { OnOk result (out.new.items ≡ out.old.items ++ list_code amount_code cells.now) }
{
    out.reserve(cells.len().saturating_mul(8).saturating_add(4))?;
    put_count(out, cells.len())?;
    for cell in cells {
        put_amount(out, *cell)?;
    }
    Ok(())
}

/// Writes a context.
fn put_context(out: &mut Vec<u8>, context: &AgentContext) -> Result<(), NoMemory>
    ensures pairs { OnOk result (out.new.items ≡ out.old.items ++ context_code context.now) }
    ensures ascend { OnOk result (AscendsFrom 0 context.now) }
{
    let pairs = context.pairs();
    put_count(out, pairs.len())?;
    for pair in pairs {
        put_variable(out, pair.0)?;
        put_value(out, pair.1)?;
    }
    Ok(())
}

/// Writes a bound: a flag that says whether there is an amount, and then the amount.
fn put_bound(out: &mut Vec<u8>, bound: Option<u64>) -> Result<(), NoMemory>
    ensures { OnOk result (out.new.items ≡ out.old.items ++ bound_code bound) }
{
    match bound {
        None => {
            out.push(0)?;
            Ok(())
        }
        Some(amount) => {
            out.push(1)?;
            put_amount(out, amount)
        }
    }
}

/// Writes a variable.
fn put_variable(out: &mut Vec<u8>, variable: VarId) -> Result<(), NoMemory>
    ensures { OnOk result (out.new.items ≡ out.old.items ++ variable_code variable) }
{
    out.extend_from_slice(&variable.0.to_be_bytes())?;
    Ok(())
}

/// Writes a value.
fn put_value(out: &mut Vec<u8>, value: Val) -> Result<(), NoMemory>
    ensures { OnOk result (out.new.items ≡ out.old.items ++ value_code value) }
{
    out.extend_from_slice(&value.0.to_be_bytes())?;
    Ok(())
}

/// Writes an amount.
fn put_amount(out: &mut Vec<u8>, amount: u64) -> Result<(), NoMemory>
    ensures { OnOk result (out.new.items ≡ out.old.items ++ amount_code amount) }
{
    out.extend_from_slice(&amount.to_be_bytes())?;
    Ok(())
}
