//! The variables above an agent, searched from the end of its path, where most of those sought are.

ghost use Rattle.std.specs.Prelude.{◌≡◌, ◌==◌, ◌||◌, false, length, nat_eq};
ghost use Rattle.std.specs.List.{filter, list_all, zip};
ghost use Rattle.std.specs.Cmp.Lexicographic.{pointwise};
ghost use Rattle.dcop_base.specs.Table.{has, has_repeat};
ghost use Rattle.adopt_context.specs.Context.{value_in};
ghost use Rattle.dpop_agent.specs.Keeping.{AreOffPath};

use dcop_base::{VarId, stands_in};

/// The size of a variable, at the variable's place in the second list; `None` exactly if the
/// variable is not in the first list, whose variables are distinct.
pub(crate) fn size_from_the_end(path: &[VarId], sizes: &[u16], var: VarId) -> Option<u16>
    requires apart { has_repeat path.now ≡ false }
    requires sized { length sizes.now ≡ length path.now }
    ensures { result ≡ value_in (zip path.now sizes.now) var }
{
    let mut left = path.len();
    while left > 0 {
        left -= 1;
        if path[left] == var {
            return Some(sizes[left]);
        }
    }
    None
}

/// Whether these variables are in a path of distinct variables, in the path's order. Both lists are
/// read from their ends, and no further than to the first of the variables.
pub(crate) fn stand_in_order(path: &[VarId], vars: &[VarId]) -> bool
    requires { has_repeat path.now ≡ false }
    ensures { result ≡ pointwise nat_eq vars.now (filter (has vars.now) path.now) }
{
    let Some((last, before)) = vars.split_last() else {
        return true;
    };
    let Some((lowest, above)) = path.split_last() else {
        return false;
    };
    if *lowest == *last {
        return stand_in_order(above, before);
    }
    stand_in_order(above, vars)
}

/// Whether a scope names only the agent and variables of its path.
pub(crate) fn are_above(scope: &[VarId], me: VarId, path: &[VarId], lower: &[VarId]) -> bool
    requires { AreOffPath lower.now path.now }
    ensures { result ≡ list_all (λ u. u == me || has path.now u) scope.now }
{
    scope.iter().all(|var| is_above(*var, me, path, lower))
}

/// Whether the variable is the agent's or one of its path. A neighbour that is not in the path is
/// one of the lower variables. It is searched for there first if they are fewer.
fn is_above(var: VarId, me: VarId, path: &[VarId], lower: &[VarId]) -> bool
    requires { AreOffPath lower.now path.now }
    ensures { result ≡ (var == me || has path.now var) }
{
    if var == me {
        return true;
    }
    if lower.len() < path.len() && stands_in(lower, var) {
        return false;
    }
    stands_from_the_end(path, var)
}

/// Whether the variable is in the list, which is searched from its end.
fn stands_from_the_end(vars: &[VarId], var: VarId) -> bool
    ensures { result ≡ has vars.now var }
{
    let Some((last, before)) = vars.split_last() else {
        return false;
    };
    if *last == var {
        return true;
    }
    stands_from_the_end(before, var)
}
