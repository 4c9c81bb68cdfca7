//! Lines with words of a text that has no comments.

ghost use Rattle.std.specs.Prelude.{◌≡◌, length, ◌<◌, ◌≤◌, ◌+◌, ◌^◌, IfSome};
ghost use Rattle.problem_text.specs.PlainLines.{plain_lines, IsFirstPlain};

use crate::line::{first_line, plain_content_of};
use crate::word::next_word;

/// A line with words, in which no byte begins a comment.
#[derive(Clone, Copy, Debug)]
pub struct PlainLine<'a> {
    /// Its number, counted from 1.
    pub number: u64,
    /// Its content.
    pub text: &'a [u8],
    /// The text after it.
    pub after: &'a [u8],
}

/// The first line with words of a text without comments; `None` exactly when no line has words.
/// `number` is the number of the text's first line.
pub fn next_plain_line(text: &[u8], number: u64) -> Option<PlainLine<'_>>
    requires { number + length text.now < 2 ^ 64 }
    ensures line { IsFirstPlain (plain_lines number text.now) result }
    ensures forward { IfSome result (λ l. number ≤ l.number) }
    ensures lines { IfSome result (λ l. l.number + length l.after.now < number + length text.now) }
{
    let mut number = number;
    let mut rest = text;
    while !rest.is_empty() {
        let (line, after) = first_line(rest);
        let content = plain_content_of(line);
        if next_word(content).is_some() {
            return Some(PlainLine {
                number,
                text: content,
                after,
            });
        }
        number += 1;
        rest = after;
    }
    None
}
