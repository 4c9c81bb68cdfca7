//! Sizes of tables: the number of values of each of their variables.

ghost use Rattle.std.specs.Prelude.{◌≡◌, ◌==◌, min};
ghost use Rattle.std.specs.List.{list_any};
ghost use Rattle.dcop_base.specs.Table.{product};

/// Whether a size is 0.
pub fn have_zero(sizes: &[u16]) -> bool
    ensures { result ≡ list_any (λ s. s == 0) sizes.now }
{
    sizes.iter().any(|size| *size == 0)
}

/// The number of cells of a table of these sizes: their product, which is 1 for no sizes. If the
/// product is above `usize::MAX`, which is no list's length, the result is `usize::MAX`.
pub fn product_of(sizes: &[u16]) -> usize
    ensures { result ≡ min (product sizes.now) usize.MAX }
{
    let mut product: usize = 1;
    for size in sizes {
        product = product.saturating_mul(usize::from(*size));
    }
    product
}
