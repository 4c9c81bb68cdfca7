//! Names among the words of a line.

ghost use Rattle.std.specs.Prelude.{◌≡◌, true, false, ◌++◌, MatchOption, IfOk};
ghost use Rattle.std.specs.List.{list_all};
ghost use Rattle.problem_text.specs.Lines.{words};
ghost use Rattle.problem_text.specs.Name.{is_name as is_name_of};
ghost use Rattle.problem_text.specs.Declarations.{is_among};
ghost use Rattle.problem_text.specs.Variables.{has_twice};

use crate::name::is_name;
use crate::names::{Labels, Names};
use crate::word::next_word;
use dcop_base::NoMemory;
use std::alloc::Global;
use std::str;

/// The word as a string; `None` exactly when it is not a name.
pub fn name_of(word: &[u8]) -> Option<&str>
    ensures { MatchOption result (is_name_of word.now ≡ false)
        (λ s. (is_name_of word.now ≡ true) × (s.now ≡ word.now)) }
{
    if !is_name(word) {
        return None;
    }
    match str::from_utf8(word) {
        Ok(name) => Some(name),
        Err(_) => None,
    }
}

/// Whether all words of a text are names.
pub fn are_names(text: &[u8]) -> bool
    ensures { result ≡ list_all is_name_of (words text.now) }
{
    let mut rest = text;
    while let Some((word, after)) = next_word(rest) {
        if !is_name(word) {
            return false;
        }
        rest = after;
    }
    true
}

/// Whether a variable has this name.
pub fn is_declared(names: &Names, name: &str) -> bool
    ensures { result ≡ is_among names.now name.now }
{
    names.find(name).is_some()
}

/// The words of a text as value names; `None` exactly when a word occurs twice.
pub fn labels_of(alloc: Global, text: &[u8]) -> Result<Option<Labels>, NoMemory>
    requires { list_all is_name_of (words text.now) ≡ true }
    ensures { IfOk result (λ o. MatchOption o (has_twice (words text.now) ≡ true)
        (λ l. (l ≡ words text.now) × (has_twice (words text.now) ≡ false))) }
{
    let mut labels = Labels::new(alloc);
    let mut rest = text;
    while let Some((word, after)) = next_word(rest) {
        if let Some(name) = name_of(word) {
            if !labels.push(name)? {
                return Ok(None);
            }
        } else {
            unreachable!();
        }
        rest = after;
    }
    Ok(Some(labels))
}
