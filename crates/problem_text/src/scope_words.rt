//! Scopes among the words of a line.

ghost use Rattle.std.specs.Prelude.{◌≡◌, true, false, ℕ, List, Some, length, position, MatchOption, IfOk, IfErr, IfSome};
ghost use Rattle.std.specs.List.{list_any, list_all, before_first, after_first};
ghost use Rattle.std.specs.Str.{bytes_eq};
ghost use Rattle.problem_text.specs.Lines.{words};
ghost use Rattle.problem_text.specs.LineEnds.{Ends};
ghost use Rattle.problem_text.specs.Name.{is_name as is_name_of};
ghost use Rattle.problem_text.specs.Declarations.{Declared};
ghost use Rattle.problem_text.specs.Tables.{is_colon, named_by, with_scope, most_names as most_names_of};

use crate::fault::TextKind;
use crate::line_end::LineEnd;
use crate::name_word::name_of;
use crate::names::Names;
use crate::word::{is_word, next_word};
use dcop_base::{MAX_SCOPE, VarId, VarList};
use std::alloc::Global;

/// How many words precede the first `:`, and the text after it; `None` exactly when there is no
/// `:`.
pub fn past_colon(text: &[u8]) -> Option<(usize, &[u8])>
    ensures none { MatchOption result (list_any is_colon (words text.now) ≡ false)
        (λ r. list_any is_colon (words text.now) ≡ true) }
    ensures before { IfSome result (λ r. r.0 ≡ length (before_first is_colon (words text.now))) }
    ensures after { IfSome result (λ r. words r.1.now ≡ after_first is_colon (words text.now)) }
{
    let mut count: usize = 0;
    let mut rest = text;
    while let Some((word, after)) = next_word(rest) {
        if is_word(word, b":") {
            return Some((count, after));
        }
        count += 1;
        rest = after;
    }
    None
}

/// The most variables that a table may have in this version.
pub fn most_names(version: u8) -> usize
    ensures { result ≡ most_names_of version }
{
    if version == 1 { 2 } else { MAX_SCOPE }
}

/// The variables that the words before the first `:` name.
pub fn scope_of(alloc: Global, names: &Names, text: &[u8]) -> Result<VarList, LineEnd<TextKind>>
    requires { list_all is_name_of names.now ≡ true }
    ensures found { IfOk result
        (λ v. named_by names.now (before_first is_colon (words text.now)) ≡ Some v) }
    ensures unknown { (d : Declared) → (cells : List (List ℕ)) → IfErr result (λ e.
        Ends e (with_scope d (named_by names.now (before_first is_colon (words text.now))) cells)) }
{
    let mut scope = VarList::new(alloc);
    let mut rest = text;
    while let Some((word, after)) = next_word(rest) {
        if is_word(word, b":") {
            return Ok(scope);
        }
        let Some(var) = variable_of_word(names, word) else {
            return Err(LineEnd::Fault(TextKind::UnknownName));
        };
        scope.push(var)?;
        rest = after;
    }
    Ok(scope)
}

/// The variable that a word names; `None` exactly when no variable has that name.
pub fn variable_of_word(names: &Names, word: &[u8]) -> Option<VarId>
    requires { list_all is_name_of names.now ≡ true }
    ensures { result ≡ position (bytes_eq word.now) names.now }
{
    match name_of(word) {
        Some(name) => names.find(name),
        None => None,
    }
}
