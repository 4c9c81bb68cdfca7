//! The header and the goal of a text.

ghost use Rattle.std.specs.Prelude.{◌≡◌, true, MatchOption, ◌⊎◌, IfSome};
ghost use Rattle.std.specs.Str.{bytes_eq};
ghost use Rattle.problem_text.specs.Lines.{words};
ghost use Rattle.problem_text.specs.Declarations.{Declared, version_alone, Declares, Fails};
ghost use Rattle.problem_text.specs.Variables.{header, goal_line};

use crate::fault::TextKind;
use crate::file::Goal;
use crate::word::{is_word, next_word};

/// The version that a header names; `None` exactly when the line is not a header.
pub fn version_of(line: &[u8]) -> Option<u8>
    ensures header { MatchOption result (header (words line.now) ≡ Fails TextKind.BadHeader)
        (λ v. header (words line.now) ≡ Declares (version_alone v)) }
    ensures version { IfSome result (λ v. (v ≡ 1) ⊎ (v ≡ 2)) }
{
    let (first, rest) = next_word(line)?;
    let (second, rest) = next_word(rest)?;
    if next_word(rest).is_some() || !is_word(first, b"dcop") {
        return None;
    }
    if is_word(second, b"1") {
        Some(1)
    } else if is_word(second, b"2") {
        Some(2)
    } else {
        None
    }
}

/// The goal that the words after `goal` name; `None` exactly when they do not name one.
pub fn goal_of(text: &[u8]) -> Option<Goal>
    ensures { (d : Declared)
        → MatchOption result (goal_line true d (words text.now) ≡ Fails TextKind.BadWord)
        (λ g. goal_line true d (words text.now) ≡ Declares (record d { goal = g })) }
{
    let (word, rest) = next_word(text)?;
    if next_word(rest).is_some() {
        return None;
    }
    if is_word(word, b"min") {
        Some(Goal::Min)
    } else if is_word(word, b"max") {
        Some(Goal::Max)
    } else {
        None
    }
}
