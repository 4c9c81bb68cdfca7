//! The law on runs of token agents.

ghost use Rattle.run_laws.specs.TokenLaws.{TokenRuns};

/// In every run of token agents at most one TOKEN and one DONE for each variable but the root are
/// delivered, and nothing else. A message is pending until all agents have ended. When all have
/// ended, exactly one TOKEN and one DONE for each variable but the root were delivered, each
/// agent's place is its place in the depth-first tree of the problem, and this tree is a linked
/// pseudotree.
pub fn token_runs()
    ensures { TokenRuns }
{}
