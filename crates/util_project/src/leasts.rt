//! The least cells over the runs of blocks of cells.

ghost use Rattle.std.specs.Prelude.{◌≡◌, ℕ, ◌+◌, ◌*◌, ◌<◌, ◌≤◌, length, slice_index, OnOk, IfOk};
ghost use Rattle.util_project.specs.Projection.{IsLeast};
ghost use Rattle.util_project.specs.Leasts.{AppendsLeasts, AreLeastRuns};

use dcop_base::NoMemory;
use std::alloc::Global;
use std::simd::prelude::*;
use util_kernel::least_lanes;

/// The length of the shortest run that is processed eight cells at a time.
const LANES: usize = 8;

/// How many cells of a run are compared at a time when only its least one is sought.
const FEW: usize = 4;

/// For each of `blocks` blocks, which have `size` runs of `inner` cells each, the cell-wise least
/// of its runs.
pub(crate) fn least_runs(
    alloc: Global,
    cells: &[u64],
    blocks: usize,
    size: usize,
    inner: usize,
) -> Result<Vec<u64>, NoMemory>
    requires full { length cells.now ≡ blocks * (size * inner) }
    requires runs { 1 ≤ size }
    ensures { IfOk result (λ kept. AreLeastRuns cells.now blocks size inner kept.items) }
{
    if inner == 1 {
        return least_cells(alloc, cells, blocks, size);
    }
    let mut kept = Vec::with_capacity(alloc, blocks * inner)?;
    for block in 0..blocks {
        let start = block * (size * inner);
        append_leasts(&mut kept, &cells[start..start + size * inner], size, inner)?;
    }
    Ok(kept)
}

/// [`least_runs`] for runs of one cell: the least cell of each block.
fn least_cells(
    alloc: Global,
    cells: &[u64],
    blocks: usize,
    size: usize,
) -> Result<Vec<u64>, NoMemory>
    requires full { length cells.now ≡ blocks * size }
    requires runs { 1 ≤ size }
    ensures { IfOk result (λ kept. AreLeastRuns cells.now blocks size 1 kept.items) }
{
    if size == FEW {
        return least_fours(alloc, cells, blocks);
    }
    let mut kept = Vec::with_capacity(alloc, blocks)?;
    for block in 0..blocks {
        let start = block * size;
        kept.push(least_of(&cells[start..start + size]))?;
    }
    Ok(kept)
}

/// [`least_cells`] for blocks of [`FEW`] cells.
fn least_fours(alloc: Global, cells: &[u64], blocks: usize) -> Result<Vec<u64>, NoMemory>
    requires { length cells.now ≡ blocks * FEW }
    ensures { IfOk result (λ kept. AreLeastRuns cells.now blocks FEW 1 kept.items) }
{
    let mut kept = Vec::with_capacity(alloc, blocks)?;
    for block in 0..blocks {
        kept.push(least_of_four(u64x4::from_slice(&cells[block * FEW..])))?;
    }
    Ok(kept)
}

/// The least of these cells.
fn least_of(cells: &[u64]) -> u64
    requires { 1 ≤ length cells.now }
    ensures { IsLeast (λ d. slice_index cells.now d) (length cells.now) result }
{
    let mut least = cells[0];
    let mut at = 1;
    if cells.len() >= FEW {
        (least, at) = least_of_blocks(cells);
    }
    while at < cells.len() {
        least = least.min(cells[at]);
        at += 1;
    }
    least
}

/// The least of the cells of all whole blocks of [`FEW`], and the number of these cells.
fn least_of_blocks(cells: &[u64]) -> (u64, usize)
    requires { FEW ≤ length cells.now }
    ensures least { IsLeast (λ d. slice_index cells.now d) result.1 result.0 }
    ensures within { result.1 ≤ length cells.now }
{
    let mut lanes = u64x4::from_slice(cells);
    let mut at = FEW;
    while at + FEW <= cells.len() {
        lanes = u64x4::from_slice(&cells[at..]).simd_min(lanes);
        at += FEW;
    }
    (least_of_four(lanes), at)
}

/// The least of four cells.
fn least_of_four(cells: u64x4) -> u64
    ensures { IsLeast (λ j. slice_index cells j) 4 result }
{
    let four = cells.to_array();
    four[0].min(four[1]).min(four[2].min(four[3]))
}

/// Appends the cell-wise least of the runs of a block.
fn append_leasts(
    kept: &mut Vec<u64>,
    block: &[u64],
    size: usize,
    inner: usize,
) -> Result<(), NoMemory>
    requires full { length block.now ≡ size * inner }
    requires runs { 1 ≤ size }
    ensures { OnOk result (AppendsLeasts block.now size inner inner kept.old.items kept.new.items) }
{
    if inner < LANES {
        append_by_cell(kept, block, size, inner)
    } else {
        append_by_lanes(kept, block, size, inner)
    }
}

/// Appends the cell-wise least of the runs of a block, one cell at a time.
fn append_by_cell(
    kept: &mut Vec<u64>,
    block: &[u64],
    size: usize,
    inner: usize,
) -> Result<(), NoMemory>
    requires full { length block.now ≡ size * inner }
    requires runs { 1 ≤ size }
    ensures { OnOk result (AppendsLeasts block.now size inner inner kept.old.items kept.new.items) }
{
    for place in 0..inner {
        kept.push(least_at(block, size, inner, place))?;
    }
    Ok(())
}

/// The least of the cells at the same place of each run of a block.
fn least_at(block: &[u64], size: usize, inner: usize, place: usize) -> u64
    requires full { length block.now ≡ size * inner }
    requires runs { 1 ≤ size }
    requires inside { place < inner }
    ensures { IsLeast (λ d. slice_index block.now (d * inner + place)) size result }
{
    let mut least = block[place];
    for number in 1..size {
        least = least.min(block[number * inner + place]);
    }
    least
}

/// Appends the first run of a block, and lowers it to the cell-wise least of all runs.
fn append_by_lanes(
    kept: &mut Vec<u64>,
    block: &[u64],
    size: usize,
    inner: usize,
) -> Result<(), NoMemory>
    requires full { length block.now ≡ size * inner }
    requires runs { 1 ≤ size }
    ensures { OnOk result (AppendsLeasts block.now size inner inner kept.old.items kept.new.items) }
{
    let start = kept.len();
    kept.extend_from_slice(&block[..inner])?;
    lower(&mut kept[start..], block, size);
    Ok(())
}

/// Lowers a copy of the first run of a block to the cell-wise least of all runs.
fn lower(run: &mut [u64], block: &[u64], size: usize)
    requires full { length block.now ≡ size * length run.old }
    requires runs { 1 ≤ size }
    requires first { (i : ℕ) → i < length run.old →
        slice_index run.old i ≡ slice_index block.now i }
    ensures long { length run.new ≡ length run.old }
    ensures least { (i : ℕ) → i < length run.old →
        IsLeast (λ d. slice_index block.now (d * length run.old + i)) size (slice_index run.new i) }
{
    let inner = run.len();
    for number in 1..size {
        least_lanes(run, &block[number * inner..number * inner + inner]);
    }
}
