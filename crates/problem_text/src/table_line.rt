//! The lines of tables.

ghost use Rattle.std.specs.Prelude.{◌≡◌, ◌<◌, false, None, length, min, IfOk};
ghost use Rattle.std.specs.List.{All};
ghost use Rattle.dcop_base.specs.Table.{has_repeat, product};
ghost use Rattle.dcop_base.specs.Limits.{cell_limit};
ghost use Rattle.problem_text.specs.Lines.{words};
ghost use Rattle.problem_text.specs.LineEnds.{GivesTable};
ghost use Rattle.problem_text.specs.Tables as lines;
ghost use Rattle.problem_text.specs.Cells.{summary};

use crate::cell_words::{Summary, cells_of, fault_of};
use crate::draft::Draft;
use crate::fault::TextKind;
use crate::line_end::LineEnd;
use crate::scope_words::{most_names, past_colon, scope_of};
use dcop_base::{CellList, MAX_CELLS, Table, VarList, product_of, repeats, sizes_of};
use std::alloc::Global;

/// The table that the words after `table` declare, with the summary of its cells: how many they
/// are, and the greatest.
pub fn table_of(
    alloc: Global,
    draft: &Draft,
    text: &[u8],
) -> Result<(Table, Summary), LineEnd<TextKind>>
    ensures gives { GivesTable draft.now result (lines.table_line draft.now (words text.now)) }
    ensures told { IfOk result (λ r. summary r.0.cells ≡ r.1) }
    ensures sound { IfOk result (λ r. lines.cells_fault draft.now.tables r.0 ≡ None) }
{
    let Some((many, cells)) = past_colon(text) else {
        return Err(LineEnd::Fault(TextKind::BadWord));
    };
    if many == 0 || many > most_names(draft.version) {
        return Err(LineEnd::Fault(TextKind::Problem { number: 3 }));
    }
    let scope = scope_of(alloc, &draft.names, text)?;
    if repeats(scope.as_slice()) {
        return Err(LineEnd::Fault(TextKind::Problem { number: 5 }));
    }
    table_with(alloc, draft, scope, cells)
}

/// The table with this scope and with the cells that these words write.
fn table_with(
    alloc: Global,
    draft: &Draft,
    scope: VarList,
    text: &[u8],
) -> Result<(Table, Summary), LineEnd<TextKind>>
    requires within { All (λ v. v < length draft.now.sizes) scope }
    requires apart { has_repeat scope ≡ false }
    ensures gives { GivesTable draft.now result
        (lines.with_cells draft.now scope (lines.numbers_of (words text.now))) }
    ensures told { IfOk result (λ r. summary r.0.cells ≡ r.1) }
    ensures sound { IfOk result (λ r. lines.cells_fault draft.now.tables r.0 ≡ None) }
{
    let sizes = sizes_of(alloc, draft.sizes.as_slice(), scope.as_slice())?;
    let most = most_cells(sizes.as_slice());
    let (cells, summary) = cells_of(alloc, text, most)?;
    if let Some(kind) = fault_of(draft, sizes.as_slice(), &summary) {
        return Err(LineEnd::Fault(kind));
    }
    let shared = CellList::shared(alloc, cells)?;
    let table = Table {
        scope,
        sizes,
        cells: shared,
    };
    Ok((table, summary))
}

/// The most cells that are kept of a table of these sizes. A table with more cells has a fault.
fn most_cells(sizes: &[u16]) -> usize
    ensures { result ≡ min (product sizes.now) cell_limit }
{
    product_of(sizes).min(MAX_CELLS as usize)
}
