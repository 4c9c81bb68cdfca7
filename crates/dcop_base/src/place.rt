//! The place of a cell.

ghost use Rattle.std.specs.Prelude.{◌≡◌, ℕ, ◌<◌, ◌≤◌, List};
ghost use Rattle.dcop_base.specs.Table.{product, cell_place};
ghost use Rattle.dcop_base.specs.Place.{AreDigits};

use crate::number::Val;

/// The place of a cell in a table whose last variable changes fastest. `digit` gives the size and
/// the value of each variable, by its place in the scope of `count` variables.
pub fn place_of<F: Fn(usize) -> (u16, Val)>(count: usize, digit: F) -> usize
    requires callable { (k : ℕ) → k < count → F.pre digit k }
    requires few { (sizes : List ℕ) × (values : List ℕ)
        × AreDigits (F.post digit) count sizes values × (product sizes ≤ usize.MAX) }
    ensures { (sizes values : List ℕ) → AreDigits (F.post digit) count sizes values
        → result ≡ cell_place sizes values }
{
    let mut place: usize = 0;
    for k in 0..count {
        let (size, value) = digit(k);
        place = place * usize::from(size) + usize::from(value.0);
    }
    place
}
