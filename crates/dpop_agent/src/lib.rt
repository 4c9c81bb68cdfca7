//! The DPOP agent: cost tables go up a tree, and values come down.
//!
//! A [`DpopAgent`] knows only its part of the problem and its place in the tree. When it has the
//! tables of all its children, it joins them with its own tables, projects its variable out, and
//! sends the result to its parent. When it receives its parent's values, it takes its own value and
//! sends its children theirs. This is the UTIL and VALUE propagation of DPOP (Petcu, Faltings,
//! IJCAI 2005).
#![tactic(auto)]

mod agent;
mod ancestors;
mod best;
mod child;
mod joint;
mod kept;
mod late;
mod made;
mod separator;
mod stage;
mod steps;
mod util;
mod values;

pub use agent::DpopAgent;
pub use made::{KeptList, Made, remake};
pub use steps::Steps;
