//! Edit sessions: a problem whose costs change, and its optimum each time it is requested.
//!
//! A [`Session`] keeps the tables that the agents of its depth-first tree make in their DPOP step.
//! An edit replaces cells of one table. It touches only the agents on the path from the table's
//! deepest variable to the root; the tables of all other agents stay valid. An answer therefore
//! recomputes the tables of touched agents only, from the leaves up, and picks the values from the
//! root down. It is what DPOP gives on the current problem.
//!
//! No agents are run: [`remake`](dpop_agent::remake) makes the tables of one agent from those that
//! its children sent. Laws say what the tables are once each agent has them, and which values are
//! then the first optimum. They also say why edits leave the tables of other agents valid. Each law
//! is the contract of a call that does nothing.
//!
//! It builds on `dpop_agent` for the tables of an agent, and on `minimised_problem` for the problem
//! that is solved.
#![tactic(auto)]

mod answering;
mod edit;
mod fault;
mod law;
mod mark;
mod pick;
mod remaking;
mod replacing;
mod session;

pub use fault::{OpenFault, SetFault};
pub use law::{
    children_may_be_joined, edits_leave_others, lowest_picks_are_first, made_tables_are_optima,
    one_more_is_held, picks_read_separators,
};
pub use session::Session;
