//! The words that may name a variable or a value.

ghost use Rattle.std.specs.Prelude.{◌≡◌};
ghost use Rattle.std.specs.List.{list_all};
ghost use Rattle.problem_text.specs.Name.{is_name as is_name_of, is_name_start, is_name_byte};

use dcop_base::MAX_NAME;

/// Whether a word is a name.
///
/// A name has 1 to [`MAX_NAME`] bytes. Each is an ASCII letter, a digit, `_`, `-` or `.`, and the
/// first is a letter or `_`.
pub fn is_name(word: &[u8]) -> bool
    ensures { result ≡ is_name_of word.now }
{
    match word.split_first() {
        None => false,
        Some((first, rest)) => {
            begins_name(*first) && are_name_bytes(rest) && word.len() <= MAX_NAME
        }
    }
}

fn begins_name(byte: u8) -> bool
    ensures { result ≡ is_name_start byte }
{
    byte.is_ascii_alphabetic() || byte == b'_'
}

fn is_name_byte(byte: u8) -> bool
    ensures { result ≡ is_name_byte byte }
{
    byte.is_ascii_alphanumeric() || byte == b'_' || byte == b'-' || byte == b'.'
}

fn are_name_bytes(bytes: &[u8]) -> bool
    ensures { result ≡ list_all is_name_byte bytes.now }
{
    bytes.iter().all(|byte| is_name_byte(*byte))
}
