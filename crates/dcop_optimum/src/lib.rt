//! The best assignments of a problem, and the plain way to find one.
//!
//! The optimum of a problem is the least cost of an assignment. There is exactly one, and
//! [`least_plain`] finds it by trying every assignment. For the goal of a greatest sum the problem
//! is turned: [`turn`] replaces each cell by its table's greatest cell minus the cell. An
//! assignment that costs more in the problem costs less in the turned problem, by the same amount.
//!
//! On a pseudotree the optimum is a recursion. The subtree optimum of a variable is the least, over
//! its values, of the cost of its own tables plus its children's subtree optima. The laws of
//! `tree_law` state this recursion and its consequences: which values are the first optimum of a
//! tree, and what a certificate shows.
#![tactic(auto)]

mod goal;
mod law;
mod plain;
mod tree_law;

pub use dcop_base::MAX_ASSIGNMENTS;
pub use goal::{top_sum, turn};
pub use law::{one_first_optimum, one_optimum};
pub use plain::{Best, PlainFault, least_plain};
pub use tree_law::{
    best_choices_are_first, certificates_show_optima, costs_are_within_cap,
    first_optima_of_trees_are_one, lower_tables_bound_optima, optima_make_certificates,
    root_bounds_enclose_optima, separators_decompose, subtree_optima_are_one,
    subtree_optima_decompose, subtree_optima_read_separators, tables_on_paths_are_own,
};
