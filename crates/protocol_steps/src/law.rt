//! Laws that follow from the definitions alone. Each is the contract of a call that does nothing:
//! code that needs the law calls it.

ghost use Rattle.protocol_steps.specs.Knowledge.{PrivatesAreKnowledge, AcquaintancesAreKnowledge};
ghost use Rattle.protocol_steps.specs.Placing.{PlacesFit};
ghost use Rattle.protocol_steps.specs.Laws.{OriginsStay, ParcelsGoToNeighbours, JournalsDecide};
ghost use Rattle.protocol_steps.specs.Links.{LinksGrow};
ghost use Rattle.protocol_steps.specs.Rounds.{RoundsAreARun};
ghost use Rattle.protocol_steps.specs.RoundBounds.{RoundsAreBounded};
ghost use Rattle.protocol_steps.specs.StampLaw.{StampsOrder};
ghost use Rattle.protocol_steps.specs.JournalStamps.{StartsShow, JournalsOrder};

/// What an agent is given of a problem is consistent, so an agent may be made from it: its
/// neighbours ascend, do not include the agent and have one size each; its tables are over the
/// agent and its neighbours; all numbers are in range.
pub fn private_is_knowledge()
    ensures { PrivatesAreKnowledge }
{}

/// What an agent is given of a problem without the costs is consistent, so an agent may be made
/// from it: its neighbours ascend, do not include the agent and have one size each; all numbers are
/// in range.
pub fn acquaintance_is_knowledge()
    ensures { AcquaintancesAreKnowledge }
{}

/// In a linked pseudotree of a problem, the place of a variable fits what its agent is given of the
/// problem: each neighbour is on the path or is a lower neighbour, the parent is a neighbour, and
/// the children are lower neighbours.
pub fn places_fit()
    ensures { PlacesFit }
{}

/// What an agent was made from never changes, neither by its start nor by a step.
pub fn origins_stay()
    ensures { OriginsStay }
{}

/// Each parcel of a start or a step goes to one of the neighbours that the agent knows, if its
/// parent and its children are among these and what it takes comes from them. The parent and the
/// children stay among the neighbours.
pub fn parcels_go_to_neighbours()
    ensures { ParcelsGoToNeighbours }
{}

/// In the start state the links of a network hold what the starts sent, and nothing is taken; a
/// lawful event appends each parcel of its step to its link, and the numbers taken rise by its
/// takes.
pub fn links_grow()
    ensures { LinksGrow }
{}

/// The journal law: two runs from one network state with the same journals end in the same network
/// state.
pub fn journals_decide()
    ensures { JournalsDecide }
{}

/// The stamp law: activations ordered by piece, such as a round, and in each piece by stamp, are a
/// run if those of each agent may follow its account, and if at the end of each piece what was
/// taken on each link is the first part of what was sent. The run starts from the network that the
/// accounts show; there too, what was taken must be the first part of what was sent.
pub fn stamps_order()
    ensures { StampsOrder }
{}

/// The accounts of agents that have only started, and have taken nothing, give the start state, so
/// the stamp law applies to it.
pub fn starts_show()
    ensures { StartsShow }
{}

/// The stamp law for journals: under the premises of the stamp law, the activations that agents'
/// journals give, ordered by piece and in each piece by stamp, are a run from the start state. A
/// journal gives them together with the messages that its agent took from each sender. The journals
/// agree with this run.
pub fn journals_order()
    ensures { JournalsOrder }
{}

/// Rounds under a budget are a run, one round after another.
pub fn rounds_are_a_run()
    ensures { RoundsAreARun }
{}

/// Each event of rounds takes at most 64 messages from any one sender. So does each event of every
/// run with the same journals, and of the log of such a run. Rounds take no more messages than the
/// budget plus the most that one round takes.
pub fn rounds_are_bounded()
    ensures { RoundsAreBounded }
{}
