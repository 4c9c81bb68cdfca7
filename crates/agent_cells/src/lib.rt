//! Cells: each is an agent with the ends of its links, its stamp and its journal.
//!
//! A [`Cell`] has a boxed [`Machine`](protocol_steps::Machine), a tail and a head for each
//! neighbour, the stamp of the agent's last step, and a journal of its steps. (A visit that fails
//! leaves no entry, even if the agent has made its step.) A visit takes what it finds on the links
//! and lets the agent react once to all of it. What the agent sends
//! carries the next stamp: 1 plus the greatest of the cell's stamp and the stamps taken (Lamport,
//! "Time, clocks, and the ordering of events in a distributed system", 1978). Contracts see a cell
//! as a plain value without rings and boxes. A visit is one step of this value, or none. Cells know
//! nothing of each other, so many may be visited concurrently. [`Cell::settle_to`] settles a link
//! between two cells, in one thread.
#![tactic(auto)]

mod cell;
mod collect;
mod deliver;
mod fault;
mod law;
mod machine;
mod marks;
mod places;
mod sealed;
mod settling;
mod visits;

pub use cell::{Cell, HeadList, TailList};
pub use fault::VisitFault;
pub use law::slots_are_a_share;
pub use sealed::Sealed;
