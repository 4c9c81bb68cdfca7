//! The scopes of a certificate's tables, compared with the separators of the tree.

ghost use Rattle.std.specs.Prelude.{◌≡◌, ◌<◌, length};
ghost use Rattle.std.specs.Str.{bytes_eq};
ghost use Rattle.pseudotree.specs.Pseudotree.{IsPseudotreeOf};
ghost use Rattle.certificate_text.specs.Fits.{FitsTables};
ghost use Rattle.minimised_problem.specs.Told.{variables};
ghost use Rattle.certificate_check.specs.Differences.{first_of, scope_difference};

use crate::told::{util_of, variable_count};
use certificate_text::{Differs, Util};
use dcop_base::{Problem, VarId};
use pseudotree::Tree;

/// The lowest variable whose scope is not its separator from the root down.
pub(crate) fn scopes_difference(problem: &Problem, tree: &Tree, utils: &[Util]) -> Option<Differs>
    requires tree { IsPseudotreeOf problem.now tree.now }
    requires fits { FitsTables problem.now.sizes utils.now }
    ensures { result ≡ first_of
        (scope_difference problem.now tree.now.paths utils.now) (variables problem.now) }
{
    for index in 0..variable_count(problem) {
        let differs = scope_difference(problem, tree, utils, VarId(index as u32));
        if differs.is_some() {
            return differs;
        }
    }
    None
}

/// The difference of one variable's scope.
fn scope_difference(problem: &Problem, tree: &Tree, utils: &[Util], var: VarId) -> Option<Differs>
    requires tree { IsPseudotreeOf problem.now tree.now }
    requires fits { FitsTables problem.now.sizes utils.now }
    requires within { var < length problem.now.sizes }
    ensures { result ≡ scope_difference problem.now tree.now.paths utils.now var }
{
    let scope = util_of(utils, var).scope.as_slice();
    if are_same(scope, tree.separator(var).as_slice()) {
        None
    } else {
        Some(Differs::Scope { var })
    }
}

/// Whether these are the same variables in the same order.
fn are_same(vars: &[VarId], others: &[VarId]) -> bool
    ensures { result ≡ bytes_eq vars.now others.now }
{
    vars == others
}
