//! Strides: how far the place of a table's cell moves when a variable's value grows by one.

ghost use Rattle.std.specs.Prelude.{◌≡◌, ◌≤◌, min};
ghost use Rattle.dcop_base.specs.Table.{product};
ghost use Rattle.util_join.specs.Strides.{stride};

use dcop_base::{Table, VarId, product_of};

/// The stride of a variable in a table; 0 if the table does not name it.
pub(crate) fn stride_of(table: &Table, var: VarId) -> usize
    requires { product table.now.sizes ≤ usize.MAX }
    ensures { result ≡ stride table.now.scope table.now.sizes var }
{
    stride_in(table.scope.as_slice(), table.sizes.as_slice(), var)
}

/// The stride of a variable in a table of this scope with these sizes, or `usize::MAX` if it is
/// more.
fn stride_in(scope: &[VarId], sizes: &[u16], var: VarId) -> usize
    ensures { result ≡ min (stride scope.now sizes.now var) usize.MAX }
{
    let Some((first, scope)) = scope.split_first() else {
        return 0;
    };
    let Some((_, sizes)) = sizes.split_first() else {
        return 0;
    };
    if var == *first {
        product_of(sizes)
    } else {
        stride_in(scope, sizes, var)
    }
}
