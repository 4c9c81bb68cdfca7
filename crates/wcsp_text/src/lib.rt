//! WCSP files: weighted constraint networks in the `wcsp` format, read as problems.
//!
//! A WCSP text gives variables with their domain sizes, functions over them as tuples with costs,
//! and a cost `top`, from which on an assignment is forbidden. [`read_wcsp`] accepts exactly these
//! texts, word by word. It returns the file of a problem whose optimum has the least WCSP value, or
//! the line and the kind of the text's first fault. Cells of at least `top` become a cost above
//! every sum of the cells below `top`; [`ReadWcsp::bar`] separates the costs that are WCSP values
//! from those that mean `top`.
//!
//! It builds on `problem_text` for problem files and lines, and on `dcop_base` for problems.
#![tactic(auto)]

mod ending;
mod fault;
mod function;
mod network;
mod number;
mod problem;
mod raising;
mod reader;
mod scope;
mod tuple;
mod word;

pub use fault::{WcspFault, WcspKind};
pub use reader::{ReadWcsp, read_wcsp};
pub use word::next_word;
