//! Pseudotrees: the rooted trees over which the agents solve a problem.
//!
//! A [`Tree`] that [`check_tree`] or [`tree_on`] returned is a pseudotree of its problem. It has
//! one root, each variable's parents lead to the root, and any two variables of one table or joint
//! are ancestor and descendant. The methods of `Tree`, [`place`] and [`widths`] rely on this and do
//! not check it again. Three laws follow from the definitions alone: separators nest, each table
//! belongs to one variable, and the depth-first tree of a problem is a pseudotree in which each
//! variable but the root is a neighbour of its parent.
#![tactic(auto)]

mod agent;
mod agent_place;
mod ancestry;
mod check;
mod climb;
mod fault;
mod law;
mod marks;
mod order;
mod rows;
mod separator;
mod tree;
mod width;

pub use agent::Place;
pub use agent_place::place;
pub use check::{check_tree, tree_on};
pub use dcop_base::{MAX_COUNT, MAX_JOINED_CELLS, MAX_SENT_CELLS};
pub use fault::TreeFault;
pub use law::{depth_first_trees_are_linked, separators_nest, tables_have_owners};
pub use tree::Tree;
pub use width::{Wide, joined_cells, sent_total, widths};
