//! The tables of its children that an agent keeps.

ghost use Rattle.std.specs.Prelude.{◌≡◌, map, is_some};
ghost use Rattle.std.specs.List.{list_all, list_any, flat_map};
ghost use Rattle.dcop_base.specs.Table.{has};
ghost use Rattle.protocol_steps.specs.Dpop.{there};

use dcop_base::{Table, VarId, stands_in};

/// Whether the variable is in the scope of a kept table.
pub(crate) fn is_in_kept(kept: &[Option<Table>], sought: VarId) -> bool
    ensures { result ≡ list_any (λ scope. has scope sought)
        (map (λ t. t.scope) (flat_map there kept.now)) }
{
    for entry in kept {
        if let Some(table) = entry {
            if stands_in(table.scope.as_slice(), sought) {
                return true;
            }
        }
    }
    false
}

/// Whether the tables of all children are kept.
pub(crate) fn are_all_there(kept: &[Option<Table>]) -> bool
    ensures { result ≡ list_all is_some kept.now }
{
    kept.iter().all(|entry| entry.is_some())
}
