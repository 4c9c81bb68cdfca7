//! The law on runs of DPOP agents.

ghost use Rattle.run_laws.specs.DpopLaws.{DpopRuns};

/// In every run of DPOP agents on a linked and narrow pseudotree at most one UTIL and one VALUE for
/// each variable but the root are delivered, and nothing else is sent. Each UTIL is the table of
/// the sender's subtree optima over its separator. Each joined cell is a plain sum: none is cut off
/// at the cap, 2^62. A message is pending until all agents have ended. When all have ended, exactly
/// one UTIL and one VALUE for each variable but the root were delivered, the values are the first
/// optimum of the tree, and the tables with these values are a certificate that holds.
pub fn dpop_runs()
    ensures { DpopRuns }
{}
