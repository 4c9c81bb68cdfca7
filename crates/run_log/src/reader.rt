//! Reading the text of a log.

ghost use Rattle.std.specs.Prelude.{◌≡◌, true};
ghost use Rattle.std.specs.List.{list_all};
ghost use Rattle.problem_text.specs.Name.{is_name};
ghost use Rattle.run_log.specs.LogReading.{log_read, ReadsLog, IsTold};

use crate::event_line::event_of_line;
use crate::log::{Log, LogEvent};
use problem_text::{LineEnd, Names, ReportFault, ReportKind, next_plain_line};
use std::alloc::Global;

/// Reads a text of lines `event AGENT STAMP`, each followed by pairs `SENDER COUNT`, up to its end.
/// The names must obey the rule of problem texts.
///
/// # Errors
///
/// [`ReportFault::Bad`] with the line and the kind of the first fault, which is of kind 1 to 3;
/// lines count from 1. [`ReportFault::NoMemory`] if memory runs out.
pub fn read_log(alloc: Global, bytes: &[u8], names: &Names) -> Result<Log, ReportFault>
    requires named { list_all is_name names.now ≡ true }
    ensures { ReadsLog result (log_read names.now bytes.now) }
{
    let mut events = Vec::new(alloc);
    let mut number: u64 = 1;
    let mut rest = bytes;
    while let Some(line) = next_plain_line(rest, number) {
        let event = event_of_line(alloc, names, line.text);
        events.push(told_by(line.number, event)?)?;
        number = line.number + 1;
        rest = line.after;
    }
    Ok(Log::from_vec(events))
}

/// The event that the line with this number gives, or its fault.
fn told_by(line: u64, event: Result<LogEvent, LineEnd<ReportKind>>) -> Result<LogEvent, ReportFault>
    ensures { IsTold line event result }
{
    match event {
        Ok(event) => Ok(event),
        Err(LineEnd::Fault(kind)) => Err(ReportFault::Bad { line, kind }),
        Err(LineEnd::NoMemory) => Err(ReportFault::NoMemory),
    }
}
