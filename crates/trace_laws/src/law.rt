//! The law of printed reports.

ghost use Rattle.trace_laws.specs.Printed.{PrintedReportsAreTraced};

/// If words of `dcop_trace` are not refused, it accepts each text that is no longer than an input
/// may be, and that consists of a problem, in the format that the words ask for, and a report with
/// a log that a method prints for it. This holds whatever events the words ask for.
pub fn printed_reports_are_traced()
    ensures { PrintedReportsAreTraced }
{}
