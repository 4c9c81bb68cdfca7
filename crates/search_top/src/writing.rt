//! The text of the report of a search.

ghost use Rattle.std.specs.Prelude.{◌≡◌, ◌∷◌, [], ◌++◌, Some, None, codes, OnOk, IfOk, IfSome};
ghost use Rattle.std.specs.List.{flat_map};
ghost use Rattle.std.specs.String.{string_bytes};
ghost use Rattle.problem_text.specs.Canonical.{line};
ghost use Rattle.search_top.specs.Text.{ending_word, head_lines, bound_lines, found_lines, search_text, AreTold};

use certificate_text::{write_number, write_values};
use dcop_base::{Bytes, NoMemory};
use problem_text::{Goal, ProblemFile, write_goal};
use search_stages::{Found, SearchEnding, SearchReport};
use std::alloc::Global;

/// The text of the report of a search on a file, with the names of the file.
///
/// Its lines are `status`, `method search`, `goal max` if the goal is max, `error`, `nodes`,
/// `cost`, `lower`, `upper`, a line `value NAME V` for each variable in order, and `end`. If no
/// assignment was found, the cost, the values and the bound on their side are left out.
///
/// # Errors
///
/// [`NoMemory`] if it runs out of memory.
pub(crate) fn write_search(
    alloc: Global,
    report: &SearchReport,
    file: &ProblemFile,
) -> Result<Bytes, NoMemory>
    requires { IfSome report.now.found (AreTold file.now) }
    ensures { IfOk result (λ bytes. bytes ≡ search_text report.now file.now) }
{
    let mut text = String::new(alloc);
    write_head(&mut text, report)?;
    write_bounds(&mut text, report)?;
    write_found(&mut text, file, &report.found)?;
    text.push_str("end\n")?;
    Ok(Bytes::from_vec(text.into_bytes()))
}

fn write_head(text: &mut String, report: &SearchReport) -> Result<(), NoMemory>
    ensures { OnOk result (string_bytes text.new
        ≡ string_bytes text.old ++ flat_map line (head_lines report.now)) }
{
    write_status(text, report.ending)?;
    text.push_str("method search\n")?;
    write_goal(text, report.goal)?;
    write_number(text, "error", report.error)?;
    write_number(text, "nodes", report.nodes)
}

fn write_status(text: &mut String, ending: SearchEnding) -> Result<(), NoMemory>
    ensures { OnOk result (string_bytes text.new
        ≡ string_bytes text.old ++ line (codes "status" ∷ ending_word ending ∷ [])) }
{
    let status = word_of(ending);
    Ok(write!(text, "status {status}\n")?)
}

/// The word for an ending: `solved`, `spent` or `none`.
fn word_of(ending: SearchEnding) -> &'static str
    ensures { result.now ≡ ending_word ending }
{
    match ending {
        SearchEnding::Solved => "solved",
        SearchEnding::Spent => "spent",
        SearchEnding::NoneBetter => "none",
    }
}

fn write_bounds(text: &mut String, report: &SearchReport) -> Result<(), NoMemory>
    ensures { OnOk result (string_bytes text.new ≡ string_bytes text.old
        ++ flat_map line (bound_lines report.now.goal report.now.bound report.now.found)) }
{
    match &report.found {
        Some(found) => write_both(text, report.goal, report.bound, found),
        None => write_one(text, report.goal, report.bound),
    }
}

/// Writes the cost of an assignment and both bounds.
fn write_both(text: &mut String, goal: Goal, bound: u64, found: &Found) -> Result<(), NoMemory>
    ensures { OnOk result (string_bytes text.new ≡ string_bytes text.old
        ++ flat_map line (bound_lines goal bound (Some found.now))) }
{
    let (lower, upper) = match goal {
        Goal::Min => (bound, found.cost),
        Goal::Max => (found.cost, bound),
    };
    write_number(text, "cost", found.cost)?;
    write_number(text, "lower", lower)?;
    write_number(text, "upper", upper)
}

/// Writes the only bound that there is without an assignment.
fn write_one(text: &mut String, goal: Goal, bound: u64) -> Result<(), NoMemory>
    ensures { OnOk result (string_bytes text.new ≡ string_bytes text.old
        ++ flat_map line (bound_lines goal bound None)) }
{
    match goal {
        Goal::Min => write_number(text, "lower", bound),
        Goal::Max => write_number(text, "upper", bound),
    }
}

fn write_found(text: &mut String, file: &ProblemFile, found: &Option<Found>) -> Result<(), NoMemory>
    requires { IfSome found.now (AreTold file.now) }
    ensures { OnOk result (string_bytes text.new
        ≡ string_bytes text.old ++ flat_map line (found_lines file.now found.now)) }
{
    match found {
        None => Ok(()),
        Some(found) => write_values(
            text,
            &file.names,
            file.labels.as_slice(),
            found.values.as_slice(),
        ),
    }
}
