//! Laws on cells in nodes.

ghost use Rattle.worker_laws.specs.Links.{LinksAreExchanged};
ghost use Rattle.worker_laws.specs.NodeRuns.{NodesMakeARun, NodesAreOne, PlayedNodesMakeRuns};
ghost use Rattle.worker_laws.specs.NodeStamps.{NodeStampsAreFew};

/// Cells in nodes have made a run from the agents' start views, if in each exchange exactly what
/// was sent on each link between nodes arrived. The cells have started, were played in rounds under
/// a budget of deliveries with an exchange between the nodes before each round, and have every link
/// exchanged and settled at the end. At the end of each round, what was taken on any link is the
/// first part of what was sent on it.
pub fn nodes_make_a_run()
    ensures { NodesMakeARun }
{}

/// Rounds of cells in nodes are rounds as in one node, and at their end every link is settled, if
/// in each exchange exactly what was sent on each link between nodes arrived.
pub fn nodes_are_one()
    ensures { NodesAreOne }
{}

/// Cells in nodes are played round by round, and have made a run when playing stops: when all
/// agents have ended, when the budget is spent, or when a round took nothing.
pub fn played_nodes_make_runs()
    ensures { PlayedNodesMakeRuns }
{}

/// If on each link of a list all that was sent was drained and what arrived was taken or waits, and
/// if agents of different nodes passed nothing where no link of the list leads, then all that was
/// sent was drained and what arrived was taken or waits between every two agents of different
/// nodes. On each link the receiver must also know of at least 64 of the waiting messages, or of
/// all if they are fewer; this too then holds between every two. No two links of the list may lead
/// from the same agent to the same agent.
pub fn links_are_exchanged()
    ensures { LinksAreExchanged }
{}

/// Stamps do not run out if in each exchange exactly what was sent arrived: no stamp of a cell, nor
/// of what it took last, is above the number of messages taken.
pub fn node_stamps_are_few()
    ensures { NodeStampsAreFew }
{}
