//! Numbers in texts.

ghost use Rattle.std.specs.Prelude.{◌≡◌, ◌<◌, ◌≤◌, length, IsTrue};
ghost use Rattle.std.specs.List.{list_all};
ghost use Rattle.std.specs.Char.{is_ascii_digit};
ghost use Rattle.dcop_base.specs.Limits.{digit_limit};
ghost use Rattle.dcop_base.specs.NumberWord.{number_of, value_of};

use crate::limit::MAX_DIGITS;

/// The number that a word spells in base ten; `None` exactly if the word is not a number.
///
/// A number is a word of 1 to [`MAX_DIGITS`] ASCII digits. Leading zeros are allowed.
pub fn number_of_word(word: &[u8]) -> Option<u64>
    ensures { result ≡ number_of word.now }
{
    if word.is_empty() || word.len() > MAX_DIGITS || !are_digits(word) {
        None
    } else {
        Some(value_of_digits(word))
    }
}

fn are_digits(word: &[u8]) -> bool
    ensures { result ≡ list_all is_ascii_digit word.now }
{
    word.iter().all(|byte| byte.is_ascii_digit())
}

fn value_of_digits(digits: &[u8]) -> u64
    requires short { length digits.now ≤ digit_limit }
    requires numeric { IsTrue (list_all is_ascii_digit digits.now) }
    ensures { result ≡ value_of digits.now }
{
    let mut value: u64 = 0;
    for digit in digits {
        value = value * 10 + u64::from(*digit - b'0');
    }
    value
}
