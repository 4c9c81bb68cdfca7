//! The report of a search on a file in the order in which it was read.

ghost use Rattle.std.specs.Prelude.{◌≡◌, length, IfOk, IfSome};
ghost use Rattle.dcop_base.specs.Whole.{IsProblem};
ghost use Rattle.dcop_base.specs.Table.{values_at};
ghost use Rattle.problem_order.specs.Order.{IsOrder};
ghost use Rattle.search_stages.specs.Asked.{IsServed};
ghost use Rattle.search_top.specs.Outside.{AreToldOutside};
ghost use Rattle.search_top.specs.Report.{IsSearchReport};
ghost use Rattle.search_top.specs.Text.{AreTold};

use dcop_base::{NoMemory, Val, ValList, VarId, problem_is_whole};
use problem_order::{reordered, reordered_files_cost_the_same, search_order};
use problem_text::ProblemFile;
use search_stages::{Asked, Found, SearchReport, search_report};
use std::alloc::Global;

/// The report of a search on a file. The variables are put into the order of the search, and what
/// is found is reported in their own order.
///
/// # Errors
///
/// [`NoMemory`] if it runs out of memory.
pub(crate) fn report_on(
    alloc: Global,
    file: &ProblemFile,
    asked: Asked,
) -> Result<SearchReport, NoMemory>
    requires { IsServed asked }
    ensures whole { IsProblem file.now.problem }
    ensures report { IfOk result (IsSearchReport file.now.goal file.now.problem asked) }
    ensures told { IfOk result (λ report. IfSome report.found (AreTold file.now)) }
{
    problem_is_whole(&file.problem);
    let order = search_order(alloc, &file.problem)?;
    let inside = reordered(alloc, file, &order)?;
    problem_is_whole(&inside.problem);
    let report = search_report(alloc, &inside, asked)?;
    reordered_files_cost_the_same();
    let found = found_outside(alloc, order.vars(), report.found)?;
    Ok(SearchReport { found, ..report })
}

/// What was found in this order of the variables, reported in their own order.
fn found_outside(
    alloc: Global,
    order: &[VarId],
    found: Option<Found>,
) -> Result<Option<Found>, NoMemory>
    requires order { IsOrder (length order.now) order.now }
    requires many { IfSome found (λ inside. length inside.values ≡ length order.now) }
    ensures { IfOk result (AreToldOutside order.now found) }
{
    match found {
        None => Ok(None),
        Some(inside) => Ok(Some(Found {
            cost: inside.cost,
            values: values_outside(alloc, order, inside.values.as_slice())?,
        })),
    }
}

/// The values of variables that are in this order, put into the variables' own order.
fn values_outside(alloc: Global, order: &[VarId], values: &[Val]) -> Result<ValList, NoMemory>
    requires order { IsOrder (length order.now) order.now }
    requires many { length values.now ≡ length order.now }
    ensures many { IfOk result (λ outside. length outside ≡ length order.now) }
    ensures same { IfOk result (λ outside. values_at order.now outside ≡ values.now) }
{
    let mut outside = vec![in alloc; Val(0); order.len()]?;
    for (place, var) in order.iter().enumerate() {
        outside[var.0 as usize] = values[place];
    }
    Ok(ValList::from_vec(outside))
}
