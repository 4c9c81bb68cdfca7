//! Lines with words.

ghost use Rattle.std.specs.Prelude.{◌≡◌, length, ◌<◌, ◌≤◌, ◌+◌, ◌^◌, IfSome};
ghost use Rattle.problem_text.specs.Lines.{lines, numbered, with_words};
ghost use Rattle.problem_text.specs.WordLines.{IsFirstLine};

use crate::line::{content_of, first_line};
use crate::word::next_word;

/// A line with words.
#[derive(Clone, Copy, Debug)]
pub struct WordLine<'a> {
    /// Its number, counted from 1.
    pub number: u64,
    /// Its content.
    pub text: &'a [u8],
    /// How many bytes the text has up to and including it.
    pub used: usize,
    /// The text after it.
    pub after: &'a [u8],
}

/// The first line with words of a text; `None` exactly when no line has words. `number` is the
/// number of the text's first line, and `used` is how many bytes precede the text.
pub fn next_line(text: &[u8], number: u64, used: usize) -> Option<WordLine<'_>>
    requires bytes { used + length text.now < 2 ^ 64 }
    requires lines { number + length text.now < 2 ^ 64 }
    ensures line { IsFirstLine (with_words (numbered number used (lines text.now))) result }
    ensures forward { IfSome result (λ l. number ≤ l.number) }
    ensures bytes { IfSome result (λ l. l.used + length l.after.now ≡ used + length text.now) }
    ensures lines { IfSome result (λ l. l.number + length l.after.now < number + length text.now) }
{
    let mut number = number;
    let mut used = used;
    let mut rest = text;
    while !rest.is_empty() {
        let (line, after) = first_line(rest);
        let content = content_of(line);
        used += line.len();
        if next_word(content).is_some() {
            return Some(WordLine {
                number,
                text: content,
                used,
                after,
            });
        }
        number += 1;
        rest = after;
    }
    None
}
