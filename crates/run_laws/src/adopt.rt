//! Laws on ADOPT agents and their runs.

ghost use Rattle.run_laws.specs.AdoptLaws.{AdoptEntries};
ghost use Rattle.run_laws.specs.AdoptPendingLaw.{AdoptPending};
ghost use Rattle.run_laws.specs.AdoptRunLaws.{AdoptBoundsEnclose, NoBoundsCross};

/// After its start and after each activation, whatever it receives, each entry of an ADOPT agent
/// has a context that is part of what the agent knows, and a share between its bounds. The
/// threshold is between the agent's bounds. If all higher neighbours are known and the sum for the
/// lower bound is not cut off at the cap, the threshold is the cost of the value plus the shares of
/// the children.
pub fn adopt_entries()
    ensures { AdoptEntries }
{}

/// In every run of ADOPT agents on a pseudotree, for every requested error, all bounds enclose
/// subtree optima, after the start and after every event. The bounds of each agent enclose its own
/// under what it knows. The bounds of each entry enclose that of its child, under the entry's
/// context together with the entry's value for the agent. Each COST that was ever sent encloses
/// that of its sender under its context. So the root's bounds enclose the optimum.
///
/// What an agent knows, and the context of each COST, gives proper ancestors values below their
/// sizes. Each δ(d), LB(d), LB, UB(d) and UB is a plain sum: none is cut off at the cap, 2^62. If
/// an agent knows all its higher neighbours, its threshold is the cost of its value plus the shares
/// of its children.
pub fn adopt_bounds_enclose()
    ensures { AdoptBoundsEnclose }
{}

/// In every run of ADOPT agents on a pseudotree, no COST is ignored because its bounds contradict
/// the stored ones, that is, because one's lower bound is above the other's upper bound. This holds
/// at every message of every batch.
pub fn no_bounds_cross()
    ensures { NoBoundsCross }
{}

/// In every run of ADOPT agents on a linked pseudotree, for every requested error, at least one
/// message is pending as long as not all agents have ended. So in a run that cannot be extended all
/// agents have ended.
pub fn adopt_pending()
    ensures { AdoptPending }
{}
