//! DPOP in turns: an exact answer for problems whose DPOP tables are too wide.
//!
//! [`run_cut`] cuts variables by the rule of the cut set, so that no joined table has more cells
//! than a limit. In each turn the cut variables are fixed to one value each, and DPOP agents solve
//! the remaining slice, on the same tree. The first turn of least cost gives the answer. The tables
//! of all turns are kept on request. The law [`kept_tables_certify`] says that they form a
//! certificate.
//!
//! It builds on `problem_cut` and `run_laws` for cuts, on `agent_links` and `agent_workers` or
//! `delivery_turns` to run the agents, and on `minimised_problem` for the tables.
#![tactic(auto)]

mod agents;
mod crew;
mod fault;
mod keep;
mod law;
mod room;
mod run;
mod tree;
mod turn;

pub use fault::CutFault;
pub use law::kept_tables_certify;
pub use problem_cut::cut_set;
pub use run::{CutEnd, run_cut};
