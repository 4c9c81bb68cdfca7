//! Scopes of functions.

ghost use Rattle.std.specs.Prelude.{◌≡◌, ◌≤◌, ◌<◌, [], false, length, IfOk};
ghost use Rattle.std.specs.List.{All};
ghost use Rattle.dcop_base.specs.Limits.{variable_limit};
ghost use Rattle.dcop_base.specs.Table.{has_repeat};
ghost use Rattle.wcsp_text.specs.Numbers.{place};
ghost use Rattle.wcsp_text.specs.Functions.{scope_read};
ghost use Rattle.wcsp_text.specs.Gives.{Gives};

use crate::fault::{Fault, WcspKind, fault_before};
use crate::number::next_number;
use dcop_base::{MAX_VARIABLES, VarId, stands_in};
use problem_text::LineEnd;
use std::alloc::Global;

/// A scope, and the text after it.
#[derive(Debug, Drop)]
pub struct ReadScope<'a> {
    pub vars: Vec<VarId>,
    pub after: &'a [u8],
}

/// The scope of `arity` variables: each is below the number of variables, and none occurs twice.
pub fn scope_of<'a>(
    alloc: Global,
    variables: usize,
    arity: u64,
    text: &'a [u8],
) -> Result<ReadScope<'a>, LineEnd<Fault>>
    requires { variables ≤ variable_limit }
    ensures read { Gives (λ s. (s.vars.items, place s.after.now)) result
        (scope_read variables [] arity (place text.now)) }
    ensures within { IfOk result (λ s. All (λ v. v < variables) s.vars.items) }
    ensures apart { IfOk result (λ s. has_repeat s.vars.items ≡ false) }
    ensures many { IfOk result (λ s. length s.vars.items ≡ arity) }
{
    let mut vars = Vec::new(alloc);
    let mut rest = text;
    for _ in 0..arity {
        let number = next_number(rest)?;
        if number.value >= variables as u64 {
            return Err(fault_before(number.after, WcspKind::Index));
        }
        let var = VarId(number.value as u32);
        if stands_in(vars.as_slice(), var) {
            return Err(fault_before(number.after, WcspKind::Index));
        }
        vars.push(var)?;
        rest = number.after;
    }
    Ok(ReadScope { vars, after: rest })
}
