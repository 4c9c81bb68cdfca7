//! Orders of a problem's variables: the same problem in another order, and the order of a search.
//!
//! The order in which a problem declares its variables decides which depth-first tree its agents
//! find. [`reordered`] gives the same file in another order. [`narrower`] does so if that makes the
//! depth-first tree narrower, wherever the order comes from. Two laws say what stays the same: what
//! assignments cost by names, and all lines of the text except for the order of the lines of the
//! variables.
//!
//! [`search_order`] gives the order in which a search goes through the variables. It eliminates
//! them one after the other. Each time it takes a variable whose elimination joins the fewest pairs
//! of neighbours (min-fill; Rose, A graph-theoretic study of the numerical solution of sparse
//! positive definite systems of linear equations, Graph Theory and Computing, 1972). The order is
//! the reverse: what is eliminated first is searched last.
#![tactic(auto)]

mod depth_first;
mod elimination;
mod graph;
mod law;
mod measure;
mod narrowing;
mod order;
mod reordering;
mod var_set;

pub use elimination::search_order;
pub use law::{
    narrowed_files_are_one, reordered_files_cost_the_same, reordered_files_keep_their_lines,
};
pub use measure::Measure;
pub use narrowing::narrower;
pub use order::Order;
pub use reordering::reordered;
