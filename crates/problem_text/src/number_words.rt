//! Numbers among the words of a line.

ghost use Rattle.std.specs.Prelude.{◌≡◌, ◌+◌, ◌≤◌, true, [], Some, length, take, MatchOption, IfSome};
ghost use Rattle.std.specs.List.{list_all, position_or_len};
ghost use Rattle.std.specs.Char.{is_ascii_digit};
ghost use Rattle.dcop_base.specs.Limits.{digit_limit};
ghost use Rattle.dcop_base.specs.NumberWord.{number_of, value_of};
ghost use Rattle.problem_text.specs.Lines.{is_blank, words};
ghost use Rattle.problem_text.specs.Tables.{onto, numbers_of};

use crate::word::{after_blanks, is_blank_byte, next_word};
use dcop_base::{MAX_DIGITS, number_of_word};

/// The number that the first word of a text writes, if it is a number, and the text after that
/// word; `None` exactly when there is no word. The bytes of a number are read once.
pub fn next_number(text: &[u8]) -> Option<(Option<u64>, &[u8])>
    ensures { MatchOption result (words text.now ≡ [])
        (λ r. (numbers_of (words text.now) ≡ onto r.0 (numbers_of (words r.1.now)))
        × (length (words r.1.now) + 1 ≡ length (words text.now))) }
{
    let from_word = after_blanks(text);
    if let Some((number, length)) = number_at(from_word) {
        let (_, after) = from_word.split_at(length);
        return Some((Some(number), after));
    }
    match next_word(from_word) {
        Some((word, after)) => Some((number_of_word(word), after)),
        None => None,
    }
}

/// The number that the word at the start of a text writes, and how many bytes that word has; `None`
/// if there is no number.
fn number_at(text: &[u8]) -> Option<(u64, usize)>
    ensures some { IfSome result (λ r. 1 ≤ r.1) }
    ensures within { IfSome result (λ r. r.1 ≤ length text.now) }
    ensures run { IfSome result (λ r. r.1 ≡ position_or_len is_blank text.now) }
    ensures number { IfSome result (λ r. number_of (take r.1 text.now) ≡ Some r.0) }
{
    let (value, count) = leading_digits(text);
    if count == 0 {
        return None;
    }
    if count < text.len() && !is_blank_byte(text[count]) {
        return None;
    }
    Some((value, count))
}

/// The value of the digits at the start of a text, and how many digits there are: those up to the
/// first other byte, and at most [`MAX_DIGITS`].
fn leading_digits(text: &[u8]) -> (u64, usize)
    ensures within { result.1 ≤ length text.now }
    ensures short { result.1 ≤ digit_limit }
    ensures digits { list_all is_ascii_digit (take result.1 text.now) ≡ true }
    ensures value { result.0 ≡ value_of (take result.1 text.now) }
{
    let mut value: u64 = 0;
    for (count, byte) in text.iter().enumerate() {
        if count == MAX_DIGITS || !byte.is_ascii_digit() {
            return (value, count);
        }
        value = value * 10 + u64::from(*byte - b'0');
    }
    (value, text.len())
}
