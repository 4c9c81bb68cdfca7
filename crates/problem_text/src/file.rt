//! Problem files: problems with their version, goal and names.

ghost use Rattle.std.specs.Prelude.{◌≡◌};
ghost use Rattle.problem_text.specs.Name.{is_name};

use crate::names::{Labels, Names};
use dcop_base::{Problem, Sequence};
use std::marker::Model;

/// The goal of a problem: the least or the greatest cost.
#[derive(Clone, Copy, Debug, PartialEq, Eq)]
pub enum Goal {
    /// An assignment of the least cost.
    Min,
    /// An assignment of the greatest cost.
    Max,
}

/// The value names of each variable: one entry for each variable, empty if the file gives none.
pub type LabelList = Sequence<Labels>;

/// A problem with its version, its goal, and the names of its variables and values.
///
/// The version is 1 or 2. It is 2 if a table has more than two variables, if the goal is max, or if
/// a variable has value names. There is one name for each variable, in order. A variable has no
/// value names, or one for each value. Every name satisfies [`is_name`](crate::is_name). The names
/// of the variables are distinct, and so are the value names of each variable.
#[derive(Debug, Drop)]
pub struct ProblemFile {
    /// The version of the format, 1 or 2.
    pub version: u8,
    /// Whether the least or the greatest cost is sought.
    pub goal: Goal,
    /// The names of the variables, in order.
    pub names: Names,
    /// The value names of each variable, in order.
    pub labels: LabelList,
    /// The variables and their cost tables.
    pub problem: Problem,
}

impl Model for ProblemFile {
    ghost use Rattle.problem_text.specs.File.{TextFile, IsFile};

    ghost Value = { TextFile };

    ghost view = { λ f. record {
      version = f.version;
      goal = f.goal;
      names = f.names;
      labels = f.labels;
      problem = f.problem;
    } };

    ghost invariant = { λ f. IsFile (record {
      version = f.version;
      goal = f.goal;
      names = f.names;
      labels = f.labels;
      problem = f.problem;
    }) };
}

/// A file that was read, and how much of the text it takes.
#[derive(Debug, Drop)]
pub struct ReadFile {
    /// The file.
    pub file: ProblemFile,
    /// How many bytes the text has up to and including the line `end`.
    pub used: usize,
}
