//! Rounds of cells that workers play concurrently, and runs of rounds.
//!
//! In a [`round`] one thread settles the links. Then the cells are played in turns, in parts that
//! workers play concurrently, or in one part by one thread. [`run`] starts the agents and plays
//! rounds until all agents have ended, a budget is spent, or a round took nothing. Contracts see
//! cells as the plain values of `agent_cells`. By the law of `worker_laws`, these make a run of the
//! network, however the workers interleave. A visit that reaches the end of the stamps fails its
//! round; `run` shows that no visit does.
#![tactic(auto)]

mod parts;
mod play;
mod rounds;
mod runs;
mod settle;
mod tail_places;
mod waiting;
mod watch;

pub use play::turns_agree;
pub use protocol_steps::RunEnd;
pub use rounds::{CellsList, play_round, round};
pub use runs::{all_ended, begin_all, run, useful_workers};
pub use settle::settle_all;
pub use waiting::Waiting;
