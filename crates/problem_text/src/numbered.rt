//! Files whose variables are named by their numbers.

ghost use Rattle.std.specs.Prelude.{◌≡◌, ℕ, [], ◌≤◌, length, replicate, IfOk};
ghost use Rattle.dcop_base.specs.Limits.{variable_limit};
ghost use Rattle.problem_text.specs.File.{has_wide_table};
ghost use Rattle.problem_text.specs.Numbered.{numbered_names, lower_version, numbered_file};

use crate::file::{Goal, LabelList, ProblemFile};
use crate::names::{Labels, Names};
use dcop_base::{MAX_VARIABLES, NoMemory, Problem, Table};
use std::alloc::Global;

impl ProblemFile {
    /// The file of this problem in which variable i is named `v` followed by i in decimal.
    ///
    /// It has the lowest version that the tables allow, goal min and no value names.
    ///
    /// # Errors
    ///
    /// [`NoMemory`] if memory runs out.
    pub fn numbered(alloc: Global, problem: Problem) -> Result<ProblemFile, NoMemory>
        ensures { IfOk result (λ file. file ≡ numbered_file problem) }
    {
        let version = lowest_version(problem.tables.as_slice());
        let count = problem.sizes.as_slice().len();
        let names = number_names(alloc, count)?;
        let labels = no_labels(alloc, count)?;
        Ok(ProblemFile {
            version,
            goal: Goal::Min,
            names,
            labels,
            problem,
        })
    }
}

fn lowest_version(tables: &[Table]) -> u8
    ensures { result ≡ lower_version tables.now }
{
    if some_are_wide(tables) { 2 } else { 1 }
}

fn some_are_wide(tables: &[Table]) -> bool
    ensures { result ≡ has_wide_table tables.now }
{
    tables.iter().any(|table| table.scope.as_slice().len() > 2)
}

fn number_names(alloc: Global, count: usize) -> Result<Names, NoMemory>
    requires { count ≤ variable_limit }
    ensures { IfOk result (λ names. names ≡ numbered_names count) }
{
    let mut names = Names::new(alloc);
    for var in 0..count {
        let name = format!(in alloc; "v{var}")?;
        names.push(name.as_str())?;
    }
    Ok(names)
}

fn no_labels(alloc: Global, count: usize) -> Result<LabelList, NoMemory>
    ensures { IfOk result (λ labels. labels ≡ replicate count []) }
{
    let mut labels = Vec::with_capacity(alloc, count)?;
    for _ in 0..count {
        labels.push(Labels::new(alloc))?;
    }
    Ok(LabelList::from_vec(labels))
}
