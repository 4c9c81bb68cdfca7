//! The laws about reports with a log.

ghost use Rattle.minimised_problem.specs.LogLaws.{DifferencesAreExact, LogsShow, MergedLogsHold};

use run_laws::{adopt_bounds_enclose, adopt_ends, token_runs};
use run_log::merged_stamps_are_right;

/// If a report with a log holds, whoever made it, then its values are an assignment, its cost is
/// their sum in the file's tables, the best sum is between its bounds, and the cost is worse than
/// the best sum by at most the gap. If it is solved, the cost is worse by at most the error.
pub fn logs_show()
    ensures { LogsShow }
{
    token_runs();
    adopt_bounds_enclose();
}

/// If a report describes the end of a run of cells with ADOPT agents on the problem solved, then
/// the report holds with the merged journals of these cells as its log.
pub fn merged_logs_hold()
    ensures { MergedLogsHold }
{
    token_runs();
    adopt_bounds_enclose();
    adopt_ends();
    merged_stamps_are_right();
}

/// A report with a log and a value for each variable holds exactly when no difference is found
/// between it and the run that its log gives. The possible differences, in the order in which they
/// are reported, are an event that is not lawful, a stamp, the status, the deliveries, the values,
/// the cost, the bounds, and a gap above the error.
pub fn differences_are_exact()
    ensures { DifferencesAreExact }
{
    token_runs();
    adopt_bounds_enclose();
}
