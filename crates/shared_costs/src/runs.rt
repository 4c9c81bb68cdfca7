//! Cells by their value of one variable.
//!
//! The cells of a table are in blocks, one for each choice of values of the variables before that
//! one. A block has a run of cells for each value of the variable.

ghost use Rattle.std.specs.Prelude.{◌≡◌, ℕ, ◌+◌, ◌*◌, ◌<◌, ◌≤◌, length, slice_index};
ghost use Rattle.std.specs.List.{All};
ghost use Rattle.dcop_base.specs.Limits.{amount_limit};
ghost use Rattle.shared_costs.specs.Runs.{digit, IsLowered, IsShifted, IsShiftedRun};

use dcop_base::CAP;

/// Lowers these amounts, one for each value of the variable. Each becomes the least cell at its
/// value if that cell is less.
pub(crate) fn lower(lows: &mut [u64], cells: &[u64], blocks: usize, inner: usize)
    requires full { length cells.now ≡ blocks * (length lows.old * inner) }
    requires some { 1 ≤ inner }
    ensures { IsLowered inner cells.now lows.old lows.new }
{
    if inner == 1 {
        return lower_by_cells(lows, cells, blocks);
    }
    let size = lows.len();
    for block in 0..blocks {
        for number in 0..size {
            let start = (block * size + number) * inner;
            lows[number] = least_from(lows[number], &cells[start..start + inner]);
        }
    }
}

/// [`lower`] when each run is one cell.
fn lower_by_cells(lows: &mut [u64], cells: &[u64], blocks: usize)
    requires { length cells.now ≡ blocks * length lows.old }
    ensures { IsLowered 1 cells.now lows.old lows.new }
{
    let size = lows.len();
    for block in 0..blocks {
        for number in 0..size {
            lows[number] = lows[number].min(cells[block * size + number]);
        }
    }
}

/// The least of an amount and these cells.
pub(crate) fn least_from(amount: u64, cells: &[u64]) -> u64
    ensures amount { result ≤ amount }
    ensures cells { All (λ c. result ≤ c) cells.now }
{
    let mut least = amount;
    for cell in cells {
        least = least.min(*cell);
    }
    least
}

/// Takes from each cell the amount in `lows` for its value of the variable, and adds the amount in
/// `gains`. A sum above [`CAP`] becomes [`CAP`].
pub(crate) fn shift(cells: &mut [u64], lows: &[u64], gains: &[u64], blocks: usize, inner: usize)
    requires full { length cells.old ≡ blocks * (length lows.now * inner) }
    requires some { 1 ≤ inner }
    requires many { length gains.now ≡ length lows.now }
    requires lows { (k : ℕ) → k < length cells.old
        → slice_index lows.now (digit (length lows.now) inner k) ≤ slice_index cells.old k }
    requires cells { All (λ c. c ≤ amount_limit) cells.old }
    requires gains { All (λ g. g ≤ amount_limit) gains.now }
    ensures { IsShifted inner lows.now gains.now cells.old cells.new }
{
    if inner == 1 {
        return shift_by_cells(cells, lows, gains, blocks);
    }
    let size = lows.len();
    for block in 0..blocks {
        for number in 0..size {
            let start = (block * size + number) * inner;
            shift_run(cells, start, start + inner, lows[number], gains[number]);
        }
    }
}

/// [`shift`] when each run is one cell.
fn shift_by_cells(cells: &mut [u64], lows: &[u64], gains: &[u64], blocks: usize)
    requires full { length cells.old ≡ blocks * length lows.now }
    requires many { length gains.now ≡ length lows.now }
    requires lows { (k : ℕ) → k < length cells.old
        → slice_index lows.now (digit (length lows.now) 1 k) ≤ slice_index cells.old k }
    requires cells { All (λ c. c ≤ amount_limit) cells.old }
    requires gains { All (λ g. g ≤ amount_limit) gains.now }
    ensures { IsShifted 1 lows.now gains.now cells.old cells.new }
{
    let size = lows.len();
    for block in 0..blocks {
        for number in 0..size {
            let k = block * size + number;
            cells[k] = (cells[k] - lows[number] + gains[number]).min(CAP);
        }
    }
}

/// Takes an amount from each cell from `start` up to `end`, and adds a gain. A sum above [`CAP`]
/// becomes [`CAP`].
fn shift_run(cells: &mut [u64], start: usize, end: usize, low: u64, gain: u64)
    requires order { start ≤ end }
    requires end { end ≤ length cells.old }
    requires low { (k : ℕ) → start ≤ k → k < end → low ≤ slice_index cells.old k }
    requires cells { All (λ c. c ≤ amount_limit) cells.old }
    requires gain { gain ≤ amount_limit }
    ensures { IsShiftedRun start end low gain cells.old cells.new }
{
    for k in start..end {
        cells[k] = (cells[k] - low + gain).min(CAP);
    }
}
