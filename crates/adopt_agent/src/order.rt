//! Variables in lists that ascend.

ghost use Rattle.std.specs.Prelude.{◌≡◌, ◌==◌, is_some};
ghost use Rattle.std.specs.List.{position};
ghost use Rattle.std.specs.List.Sorted.{IsStrictlyIncreasing};
ghost use Rattle.dcop_base.specs.Table.{has};

use dcop_base::VarId;

/// The place of a variable in a list that ascends; `None` exactly if it is not there.
pub(crate) fn place_in(vars: &[VarId], sought: VarId) -> Option<usize>
    requires ascend { IsStrictlyIncreasing vars.now }
    ensures place { result ≡ position (λ v. v == sought) vars.now }
    ensures found { is_some result ≡ has vars.now sought }
{
    vars.binary_search(&sought).ok()
}

/// Whether a variable stands in a list that ascends.
pub(crate) fn is_among(vars: &[VarId], sought: VarId) -> bool
    requires ascend { IsStrictlyIncreasing vars.now }
    ensures { result ≡ has vars.now sought }
{
    place_in(vars, sought).is_some()
}
