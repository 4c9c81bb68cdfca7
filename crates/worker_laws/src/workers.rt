//! Laws on cells, and on journals and stamps.

ghost use Rattle.worker_laws.specs.Sprints.{SprintsAreVisits};
ghost use Rattle.worker_laws.specs.Merges.{JournalsMerge};
ghost use Rattle.worker_laws.specs.StampCounts.{StampsAreFew, CellStampsAreFew};
ghost use Rattle.worker_laws.specs.OneNode.{OneNodeIsAll};
ghost use Rattle.worker_laws.specs.Played.{PlayedCellsMakeRuns};
ghost use Rattle.worker_laws.specs.WorkerLaws.{WorkersMakeARun, CellsTellEnds, CellsTellOutcomes, IdleRoundsLeaveNothing, TotalsAdd};

/// Cells that have started, were played in rounds under a budget of deliveries, and have every link
/// settled at the end, have made a run from the agents' start views. What was taken on each link is
/// the first part of what was sent. The journals' stamps are right. The merge of the journals is a
/// run that ends in the cells' views and links, with as many deliveries as the journals record. The
/// journals are in rounds under the budget.
pub fn workers_make_a_run()
    ensures { WorkersMakeARun }
{}

/// A run that cells have made ended in the way that the cells show: all agents have ended, or the
/// budget is spent, or nothing is pending.
pub fn cells_tell_ends()
    ensures { CellsTellEnds }
{}

/// The outcome of a run that cells have made is that of the cells.
pub fn cells_tell_outcomes()
    ensures { CellsTellOutcomes }
{}

/// After a round that took nothing, nothing waits for an agent that has not ended.
pub fn idle_rounds_leave_nothing()
    ensures { IdleRoundsLeaveNothing }
{}

/// Cells are played round by round, and have made a run when playing stops: when all agents have
/// ended, when the budget is spent, or when a round took nothing.
pub fn played_cells_make_runs()
    ensures { PlayedCellsMakeRuns }
{}

/// With one node, settling the links inside nodes settles every link.
pub fn one_node_is_all()
    ensures { OneNodeIsAll }
{}

/// The first visit of a cell whose agent has not ended is a sprint; a sprint with one more visit is
/// a sprint; a sprint within a limit of visits is one within any greater limit; and if the agent
/// has ended, a sprint may have no visit at all.
pub fn sprints_are_visits()
    ensures { SprintsAreVisits }
{}

/// The messages that all cells have taken are those that their visits took.
pub fn totals_add()
    ensures { TotalsAdd }
{}

/// Journals whose stamps ascend have exactly one merge by stamp and then agent.
pub fn journals_merge()
    ensures { JournalsMerge }
{}

/// In a run with right stamps no stamp is above the number of events.
pub fn stamps_are_few()
    ensures { StampsAreFew }
{}

/// Cells that have started and were played in rounds, the last of which may have been broken off,
/// have no stamp above the number of messages taken, if what was taken on each link is the first
/// part of what was sent.
pub fn cell_stamps_are_few()
    ensures { CellStampsAreFew }
{}
