//! One result for each item.

ghost use Rattle.std.specs.Prelude.{◌≡◌, ◌<◌, ℕ, Ok, length, slice_index_or, IfOk};

use dcop_base::NoMemory;
use std::alloc::Global;

/// Calls `make` with each item, in order, and returns what it makes of each.
///
/// # Errors
///
/// [`NoMemory`] if memory runs out, here or in `make`.
pub fn make_each<S: Drop, T: Drop, F: Fn(S) -> Result<T, NoMemory>>(
    alloc: Global,
    items: Vec<S>,
    make: &F,
) -> Result<Vec<T>, NoMemory>
    requires { F.IsAlwaysCallable make.now }
    ensures size { IfOk result (λ made. length made.items ≡ length items.items) }
    ensures each { IfOk result (λ made. (k : ℕ) (s : S) (t : T) → k < length items.items
        → F.post make.now (slice_index_or items.items k s) (Ok (slice_index_or made.items k t))) }
{
    let mut made = Vec::with_capacity(alloc, items.len())?;
    for item in items {
        made.push(make(item)?)?;
    }
    Ok(made)
}
