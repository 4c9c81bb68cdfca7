//! Reading the fields of a message, by its tag.

ghost use Rattle.std.specs.Prelude.{◌≡◌, ◌<◌, ◌≤◌, ◌++◌, IfOk};
ghost use Rattle.dcop_base.specs.Limits.{amount_limit};
ghost use Rattle.protocol_steps.specs.Ranges.{IsBound};
ghost use Rattle.message_code.specs.Code.{amount_code, bound_code};
ghost use Rattle.message_code.specs.Form.{amount, bound};
ghost use Rattle.message_code.specs.Reading.{Reads, IsRead};

use crate::context::context_at;
use crate::list::{cells_at, variables_at};
use crate::number::{u8_at, u16_at, u64_at};
use crate::stop::Stop;
use dcop_base::{CAP, MAX_SIZE, Val};
use protocol_steps::Message;
use std::alloc::Global;

/// The message whose tag, from 1 to 8, was read, and the bytes after its fields.
pub(crate) fn message_at(alloc: Global, tag: u8, bytes: &[u8]) -> Result<(Message, &[u8]), Stop>
    requires { (1 ≤ tag) × (tag < 9) }
    ensures { IsRead tag bytes.now result }
{
    match tag {
        1 => token_at(alloc, bytes),
        2 => done_at(alloc, bytes),
        3 => util_at(alloc, bytes),
        4 => value_all_at(alloc, bytes),
        5 => value_at(bytes),
        6 => cost_at(alloc, bytes),
        7 => threshold_at(alloc, bytes),
        _ => terminate_at(alloc, bytes),
    }
}

fn token_at(alloc: Global, bytes: &[u8]) -> Result<(Message, &[u8]), Stop>
    ensures { IsRead 1 bytes.now result }
{
    let (path, rest) = variables_at(alloc, bytes)?;
    Ok((Message::Token { path }, rest))
}

fn done_at(alloc: Global, bytes: &[u8]) -> Result<(Message, &[u8]), Stop>
    ensures { IsRead 2 bytes.now result }
{
    let (visited, rest) = variables_at(alloc, bytes)?;
    Ok((Message::Done { visited }, rest))
}

fn util_at(alloc: Global, bytes: &[u8]) -> Result<(Message, &[u8]), Stop>
    ensures { IsRead 3 bytes.now result }
{
    let (scope, rest) = variables_at(alloc, bytes)?;
    let (cells, rest) = cells_at(alloc, rest)?;
    Ok((Message::Util { scope, cells }, rest))
}

fn value_all_at(alloc: Global, bytes: &[u8]) -> Result<(Message, &[u8]), Stop>
    ensures { IsRead 4 bytes.now result }
{
    let (values, rest) = context_at(alloc, bytes)?;
    Ok((Message::ValueAll { values }, rest))
}

fn value_at(bytes: &[u8]) -> Result<(Message, &[u8]), Stop>
    ensures { IsRead 5 bytes.now result }
{
    let (value, rest) = u16_at(bytes, MAX_SIZE)?;
    Ok((Message::Value { value: Val(value) }, rest))
}

fn cost_at(alloc: Global, bytes: &[u8]) -> Result<(Message, &[u8]), Stop>
    ensures { IsRead 6 bytes.now result }
{
    let (context, rest) = context_at(alloc, bytes)?;
    let (lower, rest) = amount_at(rest)?;
    let (upper, rest) = bound_at(rest)?;
    let message = Message::Cost {
        context,
        lower,
        upper,
    };
    Ok((message, rest))
}

fn threshold_at(alloc: Global, bytes: &[u8]) -> Result<(Message, &[u8]), Stop>
    ensures { IsRead 7 bytes.now result }
{
    let (amount, rest) = amount_at(bytes)?;
    let (context, rest) = context_at(alloc, rest)?;
    Ok((Message::Threshold { amount, context }, rest))
}

fn terminate_at(alloc: Global, bytes: &[u8]) -> Result<(Message, &[u8]), Stop>
    ensures { IsRead 8 bytes.now result }
{
    let (context, rest) = context_at(alloc, bytes)?;
    Ok((Message::Terminate { context }, rest))
}

/// An amount, and the bytes after it.
#[inline]
pub(crate) fn amount_at(bytes: &[u8]) -> Result<(u64, &[u8]), Stop>
    ensures read { Reads (λ x. amount_code x.0 ++ x.1.now) amount bytes.now result }
    ensures range { IfOk result (λ x. x.0 ≤ amount_limit) }
{
    let (amount, rest) = u64_at(bytes, CAP + 1)?;
    Ok((amount, rest))
}

/// A flag, and if it is 1 the amount that follows; and the bytes after them.
fn bound_at(bytes: &[u8]) -> Result<(Option<u64>, &[u8]), Stop>
    ensures read { Reads (λ x. bound_code x.0 ++ x.1.now) bound bytes.now result }
    ensures range { IfOk result (λ x. IsBound x.0) }
{
    let (flag, rest) = u8_at(bytes, 0, 2)?;
    if flag == 0 {
        return Ok((None, rest));
    }
    let (amount, rest) = amount_at(rest)?;
    Ok((Some(amount), rest))
}
