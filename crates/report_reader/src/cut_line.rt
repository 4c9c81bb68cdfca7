//! The variables of a cut, as the first line of its certificate names them.

ghost use Rattle.std.specs.Prelude.{◌≡◌, true, IfOk};
ghost use Rattle.std.specs.List.{list_all};
ghost use Rattle.problem_text.specs.Lines.{words};
ghost use Rattle.problem_text.specs.Name.{is_name};
ghost use Rattle.problem_text.specs.Tables.{named_by};
ghost use Rattle.run_log.specs.LogReading.{Reads};
ghost use Rattle.report_reader.specs.CertificateLine.{cut_told};
ghost use Rattle.report_reader.specs.UtilLine.{known_among};
ghost use Rattle.report_reader.specs.UtilWords.{where_whole};

use crate::util_line::Scope;
use dcop_base::{NoMemory, VarList, repeats};
use problem_text::{LineEnd, Names, ReportKind, next_word, variable_of_word};
use std::alloc::Global;

/// The cut variables that the words of a text name, none of them twice.
pub fn cut_of(alloc: Global, names: &Names, text: &[u8]) -> Result<VarList, LineEnd<ReportKind>>
    requires { list_all is_name names.now ≡ true }
    ensures { Reads result (cut_told names.now (words text.now)) }
{
    let cut = named_in(alloc, names, text)?;
    if repeats(cut.known.as_slice()) {
        return Err(LineEnd::Fault(ReportKind::BadLine));
    }
    if !cut.whole {
        return Err(LineEnd::Fault(ReportKind::UnknownName));
    }
    Ok(VarList::from_vec(cut.known))
}

/// The variables that the words of a text name.
fn named_in(alloc: Global, names: &Names, text: &[u8]) -> Result<Scope, NoMemory>
    requires { list_all is_name names.now ≡ true }
    ensures known { IfOk result (λ s. s.known.items ≡ known_among names.now (words text.now)) }
    ensures named { IfOk result (λ s. named_by names.now (words text.now) ≡ where_whole s.whole s.known.items) }
{
    let mut known = Vec::new(alloc);
    let mut whole = true;
    let mut rest = text;
    while let Some((word, after)) = next_word(rest) {
        match variable_of_word(names, word) {
            Some(var) => known.push(var)?,
            None => whole = false,
        }
        rest = after;
    }
    Ok(Scope { known, whole })
}
