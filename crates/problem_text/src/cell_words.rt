//! Cells among the words of a line.

ghost use Rattle.std.specs.Prelude.{◌≡◌, ◌<◌, ℕ, List, Some, length, ◌^◌, ◌-◌, ◌≤◌, IfOk, IfErr};
ghost use Rattle.std.specs.Option.{option_map};
ghost use Rattle.dcop_base.specs.Table.{CostTable};
ghost use Rattle.problem_text.specs.Lines.{words};
ghost use Rattle.problem_text.specs.LineEnds.{Ends};
ghost use Rattle.problem_text.specs.Declarations.{Declared};
ghost use Rattle.problem_text.specs.Tables.{numbers_of, with_cells, cells_fault};
ghost use Rattle.problem_text.specs.Cells.{summary};

use crate::draft::Draft;
use crate::fault::TextKind;
use crate::line_end::LineEnd;
use crate::number_words::next_number;
use crate::short_numbers::short_run;
use dcop_base::{CAP, MAX_CELLS, MAX_COST, product_of};
use std::alloc::Global;

/// The number of cells and the greatest cell, which is 0 if there are no cells.
#[derive(Clone, Copy, Debug, PartialEq, Eq)]
pub struct Summary {
    pub count: u64,
    pub greatest: u64,
}

/// The first fault of the cells of a table that is to be added to what a text has declared so far,
/// the draft; it is found from their number and their greatest one.
pub fn fault_of(draft: &Draft, sizes: &[u16], cells: &Summary) -> Option<TextKind>
    requires { cells.now.count < 2 ^ 64 - 1 }
    ensures { (t : CostTable) → t.sizes ≡ sizes.now → summary t.cells ≡ cells.now
        → result ≡ cells_fault draft.now.tables t }
{
    let count = cells.count;
    let greatest = cells.greatest;
    if count != product_of(sizes) as u64 {
        return Some(TextKind::Problem { number: 6 });
    }
    if greatest > MAX_COST {
        return Some(TextKind::Problem { number: 7 });
    }
    if count > MAX_CELLS - draft.cells {
        return Some(TextKind::Problem { number: 9 });
    }
    if greatest > CAP - draft.sum {
        return Some(TextKind::Problem { number: 8 });
    }
    None
}

/// The cells that the words of a text write, with their summary: how many they are, and the
/// greatest. Only the first `most` cells are kept; if there are at most `most`, these are all of
/// them.
pub fn cells_of(
    alloc: Global,
    text: &[u8],
    most: usize,
) -> Result<(Vec<u64>, Summary), LineEnd<TextKind>>
    ensures told { IfOk result (λ r. option_map summary (numbers_of (words text.now)) ≡ Some r.1) }
    ensures few { IfOk result (λ r. r.1.count ≤ length text.now) }
    ensures kept { IfOk result (λ r. r.1.count ≤ most
        → numbers_of (words text.now) ≡ Some r.0.items) }
    ensures bad { (d : Declared) → (scope : List ℕ)
        → IfErr result (λ e. Ends e (with_cells d scope (numbers_of (words text.now)))) }
{
    let mut cells = vec![in alloc; 0; most.min(text.len())]?;
    let run = short_run(cells.as_mut_slice(), text);
    cells.truncate(run.count);
    let mut count = run.count;
    let mut greatest = run.greatest;
    let mut rest = run.after;
    while let Some((number, after)) = next_number(rest) {
        let Some(number) = number else {
            return Err(LineEnd::Fault(TextKind::BadNumber));
        };
        if count < most {
            cells.push(number)?;
        }
        count += 1;
        greatest = greatest.max(number);
        rest = after;
    }
    let told = Summary {
        count: count as u64,
        greatest,
    };
    Ok((cells, told))
}
