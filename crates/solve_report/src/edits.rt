//! The text of the answers of an edit session.

ghost use Rattle.std.specs.Prelude.{◌≡◌, ◌++◌, OnOk, IfOk};
ghost use Rattle.std.specs.List.{flat_map, All};
ghost use Rattle.std.specs.String.{string_bytes};
ghost use Rattle.problem_text.specs.Canonical.{line};
ghost use Rattle.solve_report.specs.Edits.{IsNamedOptimum, optimum_lines, optima_lines, edits_text};

use crate::refusal::bytes_of;
use certificate_text::write_values;
use dcop_base::{Bytes, NoMemory};
use problem_text::{Edited, ProblemFile};
use std::alloc::Global;

/// The text of a session. For each answer it has a line with the answer's number, counted from 1,
/// the number of agents' tables that were recomputed, the cost, and a line `value NAME V` for each
/// variable; then `end`. V is the value's name if the variable has value names, and the value as a
/// number otherwise.
pub(crate) fn write_edits(
    alloc: Global,
    answers: &[Edited],
    file: &ProblemFile,
) -> Result<Bytes, NoMemory>
    requires { All (IsNamedOptimum file.now) answers.now }
    ensures { IfOk result (λ text. text ≡ edits_text answers.now file.now) }
{
    let mut text = String::new(alloc);
    write_optima(&mut text, answers, file)?;
    text.push_str("end\n")?;
    Ok(bytes_of(text))
}

fn write_optima(text: &mut String, answers: &[Edited], file: &ProblemFile) -> Result<(), NoMemory>
    requires { All (IsNamedOptimum file.now) answers.now }
    ensures { OnOk result (string_bytes text.new
        ≡ string_bytes text.old ++ flat_map line (optima_lines file.now 1 answers.now)) }
{
    for (place, edited) in answers.iter().enumerate() {
        write_optimum(text, place as u64 + 1, edited, file)?;
    }
    Ok(())
}

fn write_optimum(
    text: &mut String,
    number: u64,
    edited: &Edited,
    file: &ProblemFile,
) -> Result<(), NoMemory>
    requires { IsNamedOptimum file.now edited.now }
    ensures { OnOk result (string_bytes text.new
        ≡ string_bytes text.old ++ flat_map line (optimum_lines file.now number edited.now)) }
{
    let Edited {
        cost,
        values,
        remade,
    } = edited;
    write!(text, "answer {number}\nremade {remade}\ncost {cost}\n")?;
    write_values(text, &file.names, file.labels.as_slice(), values.as_slice())
}
