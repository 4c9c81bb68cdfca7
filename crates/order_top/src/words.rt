//! The words of `dcop_order`.

ghost use Rattle.std.specs.Prelude.{◌≡◌, map, string_bytes};
ghost use Rattle.order_top.specs.Words.{asked_by, order_answer_to};

use program_frame::{OptionName, Setting, number_given, read_settings};
use solve_words::WordFault;

/// What words ask for.
#[derive(Clone, Copy, Debug, PartialEq, Eq)]
pub struct Asked {
    /// How many changed orders are tried: 0 to 1,000,000.
    pub tries: u64,
    /// The seed of the changes: 0 to 9,999,999,999,999,999,999.
    pub seed: u64,
}

/// What words ask for, or their first fault. They are pairs of an option and its value.
pub(crate) fn read_order_words(words: &[String]) -> Result<Asked, WordFault>
    ensures { result ≡ order_answer_to (map string_bytes words.now) }
{
    let mut settings = [
        Setting::number(OptionName::Tries, 0, 1_000_000),
        Setting::number(OptionName::Seed, 0, 9_999_999_999_999_999_999),
    ];
    read_settings(&mut settings, words)?;
    Ok(asked_by(&settings))
}

/// What is asked for, with the default of each number that was not given.
fn asked_by(settings: &[Setting]) -> Asked
    ensures { result ≡ asked_by settings.now }
{
    Asked {
        tries: number_given(settings, OptionName::Tries).unwrap_or(20_000),
        seed: number_given(settings, OptionName::Seed).unwrap_or(0),
    }
}
