//! The laws about reports of ADOPT with a log.

ghost use Rattle.solve_methods.specs.Logged.{AdoptReportsHold};
ghost use Rattle.solve_methods.specs.Readable.{AdoptReportsAreSmall};

use minimised_problem::merged_logs_hold;
use protocol_steps::rounds_are_bounded;

/// If cells have made the run of a report of ADOPT, the report holds with the merged journals of
/// the cells as its log.
pub fn adopt_reports_hold()
    ensures { AdoptReportsHold }
{
    merged_logs_hold();
}

/// Under a budget within its limit, a report of ADOPT has at most 2^62 deliveries, and each event
/// of its log has a stamp of at most 2^62 and takes at most 64 messages of any one sender. These
/// numbers can therefore be read again.
pub fn adopt_reports_are_small()
    ensures { AdoptReportsAreSmall }
{
    rounds_are_bounded();
}
