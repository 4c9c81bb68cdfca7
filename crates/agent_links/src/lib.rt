//! The agents of a problem, each with the ends of its links, and the cells over them.
//!
//! [`link_all`] makes a link from each agent to each of its neighbours. [`seats_of`] makes the
//! agents of a [`Start`](delivery_core::Start), which gives their kind and the tree on which they
//! run, and gives each the ends of its links. An [`Agent`] is a machine of any kind, and a plain
//! value here: whoever runs the agents boxes each one and puts it into a cell with its ends. The
//! cells are then ready to run. [`make_each`] has the loop for it, and needs no box. When the run
//! has ended, [`outcome_of`] reads the outcome of the agents from the cells. [`workers_share`] says
//! whether workers share a run in cells at all.
#![tactic(auto)]

mod agent;
mod fill;
mod links;
mod outcome;
mod seat;
mod seats;
mod sharing;

pub use agent::{Agent, Kind};
pub use fill::make_each;
pub use links::{Links, link_all};
pub use outcome::outcome_of;
pub use seat::Seat;
pub use seats::{known_in, seat_all, seats_of};
pub use sharing::workers_share;
