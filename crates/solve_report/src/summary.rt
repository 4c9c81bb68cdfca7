//! Summaries of solved problems that were made from seeds, and their text.

ghost use Rattle.std.specs.Prelude.{◌≡◌, ◌++◌, OnOk, IfOk};
ghost use Rattle.std.specs.List.{flat_map};
ghost use Rattle.std.specs.String.{string_bytes};
ghost use Rattle.problem_text.specs.Canonical.{line};
ghost use Rattle.solve_report.specs.Summary.{found_lines, made_lines, run_lines, summary_text};

use crate::refusal::bytes_of;
use certificate_text::{Ending, Method, write_number};
use dcop_base::{Bytes, NoMemory};
use std::alloc::Global;

/// The result of solving a problem that was made from a seed.
#[derive(Clone, Copy, Debug, PartialEq, Eq)]
pub struct Summary {
    /// How the run ended.
    pub status: Ending,
    /// The method that was run.
    pub method: Method,
    /// The seed that the problem was made from.
    pub seed: u64,
    /// How many variables the problem has.
    pub vars: u32,
    /// How many tables it has.
    pub tables: u64,
    /// How many cells its tables have together.
    pub cells: u64,
    /// The deliveries of the method's run alone. It is 0 for plain search.
    pub deliveries: u64,
    /// The cost of the values.
    pub cost: u64,
    /// A lower bound of the least cost.
    pub lower: u64,
    /// An upper bound of the least cost.
    pub upper: u64,
    /// The sum, over all variables i counted from 0, of i + 1 times the value of variable i.
    pub mark: u64,
}

/// The text of a summary: a line for each of its parts in order, and `end`.
pub(crate) fn write_summary(alloc: Global, summary: &Summary) -> Result<Bytes, NoMemory>
    ensures { IfOk result (λ text. text ≡ summary_text summary.now) }
{
    let mut text = String::new(alloc);
    write_run(&mut text, summary.status, summary.method)?;
    write_made(&mut text, summary)?;
    write_found(&mut text, summary)?;
    text.push_str("end\n")?;
    Ok(bytes_of(text))
}

/// How the run ended, and the method.
fn write_run(text: &mut String, status: Ending, method: Method) -> Result<(), NoMemory>
    ensures { OnOk result (string_bytes text.new
        ≡ string_bytes text.old ++ flat_map line (run_lines status method)) }
{
    let status = status.word();
    let method = method.word();
    Ok(write!(text, "status {status}\nmethod {method}\n")?)
}

/// The problem that was made.
fn write_made(text: &mut String, summary: &Summary) -> Result<(), NoMemory>
    ensures { OnOk result (string_bytes text.new
        ≡ string_bytes text.old ++ flat_map line (made_lines summary.now)) }
{
    write_number(text, "seed", summary.seed)?;
    write_number(text, "vars", u64::from(summary.vars))?;
    write_number(text, "tables", summary.tables)?;
    write_number(text, "cells", summary.cells)
}

/// What was found.
fn write_found(text: &mut String, summary: &Summary) -> Result<(), NoMemory>
    ensures { OnOk result (string_bytes text.new
        ≡ string_bytes text.old ++ flat_map line (found_lines summary.now)) }
{
    write_number(text, "deliveries", summary.deliveries)?;
    write_number(text, "cost", summary.cost)?;
    write_number(text, "lower", summary.lower)?;
    write_number(text, "upper", summary.upper)?;
    write_number(text, "mark", summary.mark)?;
    Ok(())
}
