//! The words of a line after its first one, each after a space.
//!
//! A trace has millions of them, most of them names and numbers of few digits. So they are added to
//! the text directly: `write!` takes several times as long.

ghost use Rattle.std.specs.Prelude.{◌≡◌, ◌<◌, [], ◌∷◌, ◌++◌, OnOk};
ghost use Rattle.std.specs.Fmt.{decimal};
ghost use Rattle.std.specs.String.{string_bytes};
ghost use Rattle.solve_report.specs.Replay.{bound_word, ended_word, standing_words};
ghost use Rattle.trace_text.specs.Spaced.{spaced};

use dcop_base::{NoMemory, Val};
use protocol_steps::Standing;

/// Writes a word after a space.
pub(crate) fn write_word(text: &mut String, word: &str) -> Result<(), NoMemory>
    ensures { OnOk result (string_bytes text.new
        ≡ string_bytes text.old ++ spaced (word.now ∷ [])) }
{
    text.push(' ')?;
    Ok(text.push_str(word)?)
}

/// Writes a number after a space.
pub(crate) fn write_number(text: &mut String, number: u64) -> Result<(), NoMemory>
    ensures { OnOk result (string_bytes text.new
        ≡ string_bytes text.old ++ spaced (decimal number ∷ [])) }
{
    text.push(' ')?;
    write_digits(text, number)
}

/// Writes a word and a number, each after a space.
pub(crate) fn write_numbered(text: &mut String, word: &str, number: u64) -> Result<(), NoMemory>
    ensures { OnOk result (string_bytes text.new
        ≡ string_bytes text.old ++ spaced (word.now ∷ decimal number ∷ [])) }
{
    write_word(text, word)?;
    write_number(text, number)
}

/// Writes an upper bound after a space, or `-` if there is none.
pub(crate) fn write_bound(text: &mut String, bound: Option<u64>) -> Result<(), NoMemory>
    ensures { OnOk result (string_bytes text.new
        ≡ string_bytes text.old ++ spaced (bound_word bound ∷ [])) }
{
    match bound {
        Some(bound) => write_number(text, bound),
        None => Ok(text.push_str(" -")?),
    }
}

/// Writes the state of an agent: the words `value V lower L upper U threshold T ended E`, each
/// after a space.
pub(crate) fn write_standing(
    text: &mut String,
    value: Val,
    standing: Standing,
    ended: bool,
) -> Result<(), NoMemory>
    ensures { OnOk result (string_bytes text.new
        ≡ string_bytes text.old ++ spaced (standing_words value standing ended)) }
{
    write_numbered(text, "value", number_of(value))?;
    write_numbered(text, "lower", standing.lower)?;
    write_word(text, "upper")?;
    write_bound(text, standing.upper)?;
    write_numbered(text, "threshold", standing.threshold)?;
    write_word(text, "ended")?;
    write_word(text, ended_word(ended))
}

/// The number of a value.
pub(crate) fn number_of(value: Val) -> u64
    ensures { result ≡ value }
{
    u64::from(value.0)
}

/// The word for whether an agent has ended.
fn ended_word(ended: bool) -> &'static str
    ensures { result.now ≡ ended_word ended }
{
    if ended { "yes" } else { "no" }
}

/// Writes the digits of a number.
fn write_digits(text: &mut String, number: u64) -> Result<(), NoMemory>
    ensures { OnOk result (string_bytes text.new ≡ string_bytes text.old ++ decimal number) }
{
    if number < 10 {
        return write_digit(text, number);
    }
    write_digits(text, number / 10)?;
    write_digit(text, number % 10)
}

fn write_digit(text: &mut String, digit: u64) -> Result<(), NoMemory>
    requires { digit < 10 }
    ensures { OnOk result (string_bytes text.new ≡ string_bytes text.old ++ decimal digit) }
{
    let digit = b'0' + digit as u8;
    Ok(text.push(digit as char)?)
}
