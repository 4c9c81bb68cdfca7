//! What the tables of a certificate say about each variable.

ghost use Rattle.std.specs.Prelude.{◌≡◌, ◌==◌, ◌≤◌, length, IfOk};
ghost use Rattle.std.specs.List.{count_by};
ghost use Rattle.dcop_base.specs.Limits.{variable_limit};
ghost use Rattle.minimised_problem.specs.Told.{told, parents_told};
ghost use Rattle.certificate_check.specs.Cells.{HaveOneEach};

use certificate_text::Util;
use dcop_base::{MAX_VARIABLES, NoMemory, Problem, VarId};
use std::alloc::Global;

/// How many variables a problem has.
pub(crate) fn variable_count(problem: &Problem) -> usize
    ensures count { result ≡ length problem.now.sizes }
    ensures few { result ≤ variable_limit }
{
    problem.sizes.as_slice().len()
}

/// The table of a variable.
pub(crate) fn util_of(utils: &[Util], var: VarId) -> &Util
    requires { count_by (λ u. u.var == var) utils.now ≡ 1 }
    ensures { result.now ≡ told utils.now var }
{
    for util in utils {
        if util.var == var {
            return util;
        }
    }
    unreachable!()
}

/// The parent of each variable, in order.
pub(crate) fn parents_of(
    alloc: Global,
    problem: &Problem,
    utils: &[Util],
) -> Result<Vec<Option<VarId>>, NoMemory>
    requires { HaveOneEach (length problem.now.sizes) utils.now }
    ensures { IfOk result (λ parents. parents.items ≡ parents_told problem.now utils.now) }
{
    let count = variable_count(problem);
    let mut parents = Vec::with_capacity(alloc, count)?;
    for index in 0..count {
        parents.push(util_of(utils, VarId(index as u32)).parent)?;
    }
    Ok(parents)
}
