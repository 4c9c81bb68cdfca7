//! The canonical text of a file, written in one pass.

ghost use Rattle.std.specs.Prelude.{◌≡◌, ℕ, ◌<◌, ◌≤◌, ◌∷◌, [], ◌++◌, List, length, map, codes, OnOk, IfOk};
ghost use Rattle.std.specs.List.{flat_map, join_with_byte, slice_index_or, All};
ghost use Rattle.std.specs.Fmt.{decimal};
ghost use Rattle.std.specs.String.{string_bytes};
ghost use Rattle.dcop_base.specs.Limits.{variable_limit};
ghost use Rattle.problem_text.specs.Canonical.{line, goal_lines, opening_lines, variable_words, variable_lines, table_words, canonical};
ghost use Rattle.problem_text.specs.Steps.{IsReadAs};

use crate::file::{Goal, ProblemFile};
use crate::names::{Labels, Names};
use dcop_base::{Bytes, MAX_VARIABLES, NoMemory, Table, VarId};
use std::alloc::Global;

/// The canonical text of a file, in the file's version.
///
/// The text has one space between words, LF at the end of each line, no comments, no empty lines,
/// and numbers without leading zeros. Its lines are: `dcop` and the version; `goal max` if the goal
/// is max; one line `var NAME SIZE` or `var NAME : VALUES` for each variable, in order; one line
/// `table NAMES : CELLS` for each table, in order; and `end`. [`read_problem`](crate::read_problem)
/// reads this text as the same file.
///
/// # Errors
///
/// [`NoMemory`] if memory runs out.
pub fn write_problem(alloc: Global, file: &ProblemFile) -> Result<Bytes, NoMemory>
    ensures text { IfOk result (λ text. text ≡ canonical file.now) }
    ensures again { IfOk result (λ text. IsReadAs text file.now) }
{
    let mut text = String::new(alloc);
    write_head(&mut text, file.version, file.goal)?;
    let problem = &file.problem;
    let sizes = problem.sizes.as_slice();
    write_variables(&mut text, &file.names, sizes, file.labels.as_slice())?;
    write_tables(&mut text, &file.names, problem.tables.as_slice())?;
    text.push_str("end\n")?;
    Ok(Bytes::from_vec(text.into_bytes()))
}

fn write_head(text: &mut String, version: u8, goal: Goal) -> Result<(), NoMemory>
    ensures { OnOk result (string_bytes text.new
        ≡ string_bytes text.old ++ flat_map line (opening_lines version goal)) }
{
    write!(text, "dcop {version}\n")?;
    write_goal(text, goal)
}

/// Adds the line `goal max` to a text, if the goal is max.
///
/// # Errors
///
/// [`NoMemory`] if memory runs out. No clause then says what the text holds.
pub fn write_goal(text: &mut String, goal: Goal) -> Result<(), NoMemory>
    ensures { OnOk result (string_bytes text.new
        ≡ string_bytes text.old ++ flat_map line (goal_lines goal)) }
{
    match goal {
        Goal::Min => Ok(()),
        Goal::Max => Ok(text.push_str("goal max\n")?),
    }
}

fn write_variables(
    text: &mut String,
    names: &Names,
    sizes: &[u16],
    labels: &[Labels],
) -> Result<(), NoMemory>
    requires named { length names.now ≡ length sizes.now }
    requires labelled { length labels.now ≡ length sizes.now }
    requires few { length sizes.now ≤ variable_limit }
    ensures { OnOk result (string_bytes text.new
        ≡ string_bytes text.old ++ flat_map line (variable_lines names.now sizes.now labels.now)) }
{
    for (place, size) in sizes.iter().enumerate() {
        write_variable(text, names.name(VarId(place as u32)), *size, &labels[place])?;
    }
    Ok(())
}

fn write_variable(text: &mut String, name: &str, size: u16, labels: &Labels) -> Result<(), NoMemory>
    ensures { OnOk result (string_bytes text.new
        ≡ string_bytes text.old ++ line (variable_words name.now size labels.now)) }
{
    if labels.len() == 0 {
        Ok(write!(text, "var {name} {size}\n")?)
    } else {
        write!(text, "var {name} :")?;
        write_labels(text, labels)?;
        Ok(text.push_str("\n")?)
    }
}

fn write_labels(text: &mut String, labels: &Labels) -> Result<(), NoMemory>
    ensures { OnOk result (string_bytes text.new
        ≡ string_bytes text.old ++ flat_map (λ label. 32 ∷ label) labels.now) }
{
    for value in 0..labels.len() {
        let label = labels.name(value);
        write!(text, " {label}")?;
    }
    Ok(())
}

fn write_tables(text: &mut String, names: &Names, tables: &[Table]) -> Result<(), NoMemory>
    requires { All (λ t. All (λ v. v < length names.now) t.scope) tables.now }
    ensures { OnOk result (string_bytes text.new
        ≡ string_bytes text.old ++ flat_map line (map (table_words names.now) tables.now)) }
{
    for table in tables {
        write_table(text, names, table)?;
    }
    Ok(())
}

fn write_table(text: &mut String, names: &Names, table: &Table) -> Result<(), NoMemory>
    requires { All (λ v. v < length names.now) table.now.scope }
    ensures { OnOk result (string_bytes text.new
        ≡ string_bytes text.old ++ line (table_words names.now table.now)) }
{
    text.push_str("table")?;
    write_scope(text, names, table.scope.as_slice())?;
    text.push_str(" :")?;
    write_cells(text, table.cells.as_slice())?;
    Ok(text.push_str("\n")?)
}

/// Adds the names of these variables to a text, each after a space.
///
/// # Errors
///
/// [`NoMemory`] if memory runs out. No clause then says what the text holds.
pub fn write_scope(text: &mut String, names: &Names, scope: &[VarId]) -> Result<(), NoMemory>
    requires { All (λ v. v < length names.now) scope.now }
    ensures { OnOk result (string_bytes text.new
        ≡ string_bytes text.old ++ flat_map (λ v. 32 ∷ slice_index_or names.now v []) scope.now) }
{
    for var in scope {
        let name = names.name(*var);
        write!(text, " {name}")?;
    }
    Ok(())
}

/// Adds these numbers to a text, each after a space.
///
/// # Errors
///
/// [`NoMemory`] if memory runs out. No clause then says what the text holds.
pub fn write_cells(text: &mut String, cells: &[u64]) -> Result<(), NoMemory>
    ensures { OnOk result (string_bytes text.new
        ≡ string_bytes text.old ++ flat_map (λ cell. 32 ∷ decimal cell) cells.now) }
{
    for cell in cells {
        write!(text, " {cell}")?;
    }
    Ok(())
}
