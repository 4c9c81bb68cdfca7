//! The problem that the agents solve: variables, cost tables, joints and the limits on them.
//!
//! Every [`Problem`] is within the limits, its graph of tables and joints is connected, and no sum
//! of its costs exceeds [`CAP`]. The crates above rely on these facts and do not check them again.
//! [`cost_of`] gives the cost of an assignment, and [`private`] the part of a problem that one
//! agent knows.
#![tactic(auto)]

mod cells;
mod cost;
mod fault;
mod joint;
mod knowledge;
mod limit;
mod memory;
mod number;
mod number_word;
mod part;
mod place;
mod problem;
mod scope;
mod sequence;
mod size;
mod table;

pub use cells::CellList;
pub use cost::cost_of;
pub use knowledge::Private;
pub use limit::{
    CAP, MAX_ASSIGNMENTS, MAX_BUDGET, MAX_CELLS, MAX_COST, MAX_COUNT, MAX_DIGITS, MAX_INPUT,
    MAX_JOINED_CELLS, MAX_NAME, MAX_SCOPE, MAX_SENT_CELLS, MAX_SIZE, MAX_TURNS, MAX_VARIABLES,
    limits_agree,
};
pub use memory::NoMemory;
pub use number::{Amount, Val, VarId};
pub use number_word::number_of_word;
pub use part::{acquaintance, private};
pub use place::place_of;
pub use problem::{Problem, ProblemFault, problem_is_whole};
pub use scope::{position_of, repeats, sizes_of, stands_in};
pub use sequence::{Bytes, PairList, Sequence, SizeList, TableList, ValList, VarList};
pub use size::{have_zero, product_of};
pub use table::{Table, TableFault};
