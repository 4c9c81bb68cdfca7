//! The lines of a report before the values.

ghost use Rattle.std.specs.Prelude.{codes};
ghost use Rattle.report_reader.specs.HeadLines.{status_line, method_line, max_line, number_line};
ghost use Rattle.report_reader.specs.ReportLines.{one_line};
ghost use Rattle.report_reader.specs.ReportReading.{goal_read, head_read, bounds_read};
ghost use Rattle.report_reader.specs.Steps.{IsRead};

use crate::head_line::{max_of, method_of, number_of, status_of};
use crate::lines::{Lines, told_by};
use certificate_text::{Ending, Method};
use problem_text::{Goal, ReportFault};

/// What the lines before the cost give.
#[derive(Clone, Copy, Debug)]
pub struct Head {
    pub status: Ending,
    pub method: Method,
    pub goal: Goal,
    pub error: u64,
    pub deliveries: u64,
}

/// The cost of the values, and the bounds of the best cost.
#[derive(Clone, Copy, Debug)]
pub struct Bounds {
    pub cost: u64,
    pub lower: u64,
    pub upper: u64,
}

/// Reads the lines before the cost, on a file with this goal.
pub fn read_head(lines: &mut Lines<'_>, file_goal: Goal) -> Result<Head, ReportFault>
    ensures { IsRead (head_read file_goal lines.old) result lines.new }
{
    let status = read_status(lines)?;
    let method = read_method(lines)?;
    let goal = read_goal(lines, file_goal)?;
    let error = read_number(lines, b"error")?;
    let deliveries = read_number(lines, b"deliveries")?;
    Ok(Head {
        status,
        method,
        goal,
        error,
        deliveries,
    })
}

/// Reads the lines of the cost and the bounds.
pub fn read_bounds(lines: &mut Lines<'_>) -> Result<Bounds, ReportFault>
    ensures { IsRead (bounds_read lines.old) result lines.new }
{
    let cost = read_number(lines, b"cost")?;
    let lower = read_number(lines, b"lower")?;
    let upper = read_number(lines, b"upper")?;
    Ok(Bounds { cost, lower, upper })
}

fn read_status(lines: &mut Lines<'_>) -> Result<Ending, ReportFault>
    ensures { IsRead (one_line status_line lines.old) result lines.new }
{
    let line = lines.line()?;
    told_by(line.number, status_of(line.text))
}

fn read_method(lines: &mut Lines<'_>) -> Result<Method, ReportFault>
    ensures { IsRead (one_line method_line lines.old) result lines.new }
{
    let line = lines.line()?;
    told_by(line.number, method_of(line.text))
}

/// Reads the line `goal max`, which is present exactly if the file's goal is max.
fn read_goal(lines: &mut Lines<'_>, file_goal: Goal) -> Result<Goal, ReportFault>
    ensures { IsRead (goal_read file_goal lines.old) result lines.new }
{
    match file_goal {
        Goal::Min => Ok(Goal::Min),
        Goal::Max => read_max(lines),
    }
}

fn read_max(lines: &mut Lines<'_>) -> Result<Goal, ReportFault>
    ensures { IsRead (one_line max_line lines.old) result lines.new }
{
    let line = lines.line()?;
    told_by(line.number, max_of(line.text))
}

fn read_number(lines: &mut Lines<'_>, key: &[u8]) -> Result<u64, ReportFault>
    ensures { IsRead (one_line (number_line key.now) lines.old) result lines.new }
{
    let line = lines.line()?;
    told_by(line.number, number_of(line.text, key))
}
