//! Reading contexts.

ghost use Rattle.std.specs.Prelude.{◌≡◌, ◌<◌, ◌≤◌, ◌++◌, length, IfOk};
ghost use Rattle.std.specs.List.{flat_map};
ghost use Rattle.dcop_base.specs.Limits.{variable_limit, size_limit};
ghost use Rattle.adopt_context.specs.Context.{AscendsFrom};
ghost use Rattle.protocol_steps.specs.Ranges.{IsContext};
ghost use Rattle.message_code.specs.Code.{pair_code, context_code};
ghost use Rattle.message_code.specs.Form.{pair, pairs, context};
ghost use Rattle.message_code.specs.Reading.{Reads};

use crate::number::{u16_at, u32_at};
use crate::stop::Stop;
use adopt_context::AgentContext;
use dcop_base::{MAX_SIZE, MAX_VARIABLES, Val, VarId};
use std::alloc::Global;

/// A context, and the bytes after it.
pub(crate) fn context_at(alloc: Global, bytes: &[u8]) -> Result<(AgentContext, &[u8]), Stop>
    ensures read { Reads (λ x. context_code x.0 ++ x.1.now) context bytes.now result }
    ensures range { IfOk result (λ x. IsContext x.0) }
    ensures ascends { IfOk result (λ x. AscendsFrom 0 x.0) }
{
    let (count, rest) = u32_at(bytes, 0, MAX_VARIABLES as u32 + 1)?;
    let (context, rest) = so_many_pairs(alloc, count, rest)?;
    Ok((context, rest))
}

/// A context of `count` pairs whose variables ascend, and the bytes after it.
fn so_many_pairs(alloc: Global, count: u32, bytes: &[u8]) -> Result<(AgentContext, &[u8]), Stop>
    ensures read { Reads (λ x. flat_map pair_code x.0 ++ x.1.now) (pairs count 0) bytes.now result }
    ensures count { IfOk result (λ x. length x.0 ≡ count) }
    ensures range { IfOk result (λ x. IsContext x.0) }
    ensures ascends { IfOk result (λ x. AscendsFrom 0 x.0) }
{
    let mut context = AgentContext::new(alloc);
    let mut least = 0;
    let mut rest = bytes;
    for _ in 0..count {
        let (variable, value, behind) = pair_at(rest, least)?;
        context.set(VarId(variable), Val(value))?;
        least = variable + 1;
        rest = behind;
    }
    Ok((context, rest))
}

/// A variable from `least` up and its value, and the bytes after them.
fn pair_at(bytes: &[u8], least: u32) -> Result<(u32, u16, &[u8]), Stop>
    ensures read { Reads (λ x. pair_code (x.0, x.1) ++ x.2.now) (pair least) bytes.now result }
    ensures range { IfOk result (λ x. (least ≤ x.0) × (x.0 < variable_limit) × (x.1 < size_limit)) }
{
    let (variable, rest) = u32_at(bytes, least, MAX_VARIABLES as u32)?;
    let (value, rest) = u16_at(rest, MAX_SIZE)?;
    Ok((variable, value, rest))
}
