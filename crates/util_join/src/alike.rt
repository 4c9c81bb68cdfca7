//! Rows of cells to which the same row of a table is added.

ghost use Rattle.std.specs.Prelude.{◌≡◌, ℕ, ◌*◌, ◌-◌, ◌<◌, ◌≤◌, length, slice_index};
ghost use Rattle.std.specs.List.{All};
ghost use Rattle.dcop_base.specs.Limits.{amount_limit};
ghost use Rattle.util_join.specs.Strides.{AreRowSums, along};

use crate::row::{Row, add_row};

/// How many cells of short rows are added at a time.
const SPAN: usize = 32;

/// Adds amounts of `from` to the cells of rows: the same amounts to each row, and `step` places
/// further on for each next cell of a row. A sum above [`CAP`](dcop_base::CAP) becomes `CAP`.
pub(crate) fn add_alike(cells: &mut [u64], from: &[u64], row: Row)
    requires counted { length cells.old ≡ row.count }
    requires some { (1 ≤ row.count) × (1 ≤ row.width) }
    requires inside { row.step * (row.width - 1) < length from.now }
    requires cells { All (λ n. n ≤ amount_limit) cells.old }
    requires from { All (λ n. n ≤ amount_limit) from.now }
    ensures { AreRowSums from.now row.width row.step cells.old cells.new }
{
    if row.count <= row.width || row.width > SPAN {
        return add_each(cells, from, row.width, row.step);
    }
    add_short(cells, from, row.width, row.step);
}

/// [`add_alike`] for several short rows. The row of the table is copied as often as it has room,
/// and the copies are added together.
fn add_short(cells: &mut [u64], from: &[u64], width: usize, step: usize)
    requires some { 1 ≤ width }
    requires short { width ≤ SPAN }
    requires several { width ≤ length cells.old }
    requires inside { step * (width - 1) < length from.now }
    requires cells { All (λ n. n ≤ amount_limit) cells.old }
    requires from { All (λ n. n ≤ amount_limit) from.now }
    ensures { AreRowSums from.now width step cells.old cells.new }
{
    let mut copies = [0; SPAN];
    let room = cells.len().min(SPAN);
    let (copies, _) = copies.split_at_mut(room);
    copy_row(copies, from, width, step);
    let span = room - room % width;
    add_each(cells, copies, span, 1);
}

/// Fills a list with copies of a row of `from`, the last of which may be cut off.
fn copy_row(copies: &mut [u64], from: &[u64], width: usize, step: usize)
    requires some { 1 ≤ width }
    requires room { width ≤ length copies.old }
    requires inside { step * (width - 1) < length from.now }
    ensures long { length copies.new ≡ length copies.old }
    ensures copied { (p : ℕ) → p < length copies.old
        → slice_index copies.new p ≡ slice_index from.now (along width step p) }
{
    for p in 0..width {
        copies[p] = from[step * p];
    }
    for p in width..copies.len() {
        copies[p] = copies[p - width];
    }
}

/// [`add_alike`], one row after the other. The last one may be cut off.
fn add_each(cells: &mut [u64], from: &[u64], width: usize, step: usize)
    requires some { (1 ≤ length cells.old) × (1 ≤ width) }
    requires inside { step * (width - 1) < length from.now }
    requires cells { All (λ n. n ≤ amount_limit) cells.old }
    requires from { All (λ n. n ≤ amount_limit) from.now }
    ensures { AreRowSums from.now width step cells.old cells.new }
{
    let mut at = 0;
    while cells.len() - at > width {
        add_row(&mut cells[at..at + width], from, step);
        at += width;
    }
    add_row(&mut cells[at..], from, step);
}
