//! The law on the end of a run of ADOPT agents.

ghost use Rattle.run_laws.specs.AdoptEnd.{AdoptEnds};

/// When all ADOPT agents of a run on a linked pseudotree have ended, for every requested error,
/// their values are an assignment that costs at most the optimum plus the error. Each agent then
/// knows exactly its proper ancestors' values. The cost of the values is at most the root's
/// threshold, and this threshold is at most the root's lower bound plus the error, cut off at the
/// cap.
pub fn adopt_ends()
    ensures { AdoptEnds }
{}
