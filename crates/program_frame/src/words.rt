//! Words that are pairs of an option and its value.

ghost use Rattle.std.specs.Prelude.{◌≡◌, ◌≤◌, count_by, is_some, map, string_bytes, MatchResult};
ghost use Rattle.dcop_base.specs.NumberWord.{number_of};
ghost use Rattle.solve_words.specs.Names.{format_named};
ghost use Rattle.program_frame.specs.Settings.{given_to};
ghost use Rattle.program_frame.specs.Words.{place_behind, option_told, value_told, number_within, format_known, settings_told};

use crate::setting::{OptionValue, Setting, Takes, setting_named};
use dcop_base::number_of_word;
use solve_words::{Format, WordFault, WordKind};

/// Gives these options the values that words ask for.
///
/// The words are pairs of an option and its value, read from left to right. Of each pair the option
/// must exist and be new, a value must follow it, and the value must be a number in the option's
/// range or the name of a format.
///
/// # Errors
///
/// The first fault of the words, with its place. Places count from 1.
pub fn read_settings(settings: &mut [Setting], words: &[String]) -> Result<(), WordFault>
    ensures { MatchResult result
        (λ _. settings_told settings.old (map string_bytes words.now) ≡ Ok settings.new)
        (λ fault. settings_told settings.old (map string_bytes words.now) ≡ Err fault) }
{
    let Some((name, behind)) = words.split_first() else {
        return Ok(());
    };
    let at = place_behind(settings);
    let takes = read_option(settings, at, name.as_str())?;
    let Some((word, rest)) = behind.split_first() else {
        return Err(bad(at, WordKind::NoValue));
    };
    let value = read_value(at + 1, takes, word.as_str())?;
    give(settings, name.as_str(), value);
    read_settings(settings, rest)
}

/// The place of the word after the pairs that gave these values, counted from 1.
fn place_behind(settings: &[Setting]) -> u64
    ensures { result ≡ place_behind settings.now }
{
    1 + 2 * given_in(settings) as u64
}

/// How many of these options have a value.
fn given_in(settings: &[Setting]) -> usize
    ensures { result ≡ count_by (λ setting. is_some setting.value) settings.now }
{
    settings
        .iter()
        .filter(|setting| setting.value.is_some())
        .count()
}

/// What the option takes that the word at this place names, if it has no value yet; otherwise the
/// fault of the word.
fn read_option(settings: &[Setting], at: u64, word: &str) -> Result<Takes, WordFault>
    ensures { result ≡ option_told at settings.now word.now }
{
    let Some(option) = setting_named(settings, word) else {
        return Err(bad(at, WordKind::UnknownOption));
    };
    if option.value.is_some() {
        return Err(bad(at, WordKind::Twice));
    }
    Ok(option.takes)
}

/// The value that the word at this place gives an option that takes this, or the fault of the word.
fn read_value(at: u64, takes: Takes, word: &str) -> Result<OptionValue, WordFault>
    ensures { result ≡ value_told at takes word.now }
{
    match takes {
        Takes::Number { least, most } => Ok(OptionValue::Number(read_number(
            at, least, most, word,
        )?)),
        Takes::Format => Ok(OptionValue::Format(read_format(at, word)?)),
    }
}

/// The number from `least` to `most` that the word at this place writes, or the fault of the word.
fn read_number(at: u64, least: u64, most: u64, word: &str) -> Result<u64, WordFault>
    ensures { result ≡ number_within at least most (number_of word.now) }
{
    let Some(number) = number_of_word(word.as_bytes()) else {
        return Err(bad(at, WordKind::BadNumber));
    };
    if number < least || number > most {
        return Err(bad(at, WordKind::OutOfRange));
    }
    Ok(number)
}

/// The format that the word at this place names, or the fault of the word.
fn read_format(at: u64, word: &str) -> Result<Format, WordFault>
    ensures { result ≡ format_known at (format_named word.now) }
{
    match word {
        "dcop" => Ok(Format::Dcop),
        "wcsp" => Ok(Format::Wcsp),
        _ => Err(bad(at, WordKind::BadChoice)),
    }
}

/// Gives the first option that a word names this value.
fn give(settings: &mut [Setting], word: &str, value: OptionValue)
    ensures { settings.new ≡ given_to word.now value settings.old }
{
    let Some((setting, later)) = settings.split_first_mut() else {
        return;
    };
    if setting.name.word() == word {
        setting.value = Some(value);
    } else {
        give(later, word, value);
    }
}

/// The fault of the word at this place.
fn bad(at: u64, kind: WordKind) -> WordFault
    ensures { result ≡ WordFault.Bad at kind }
{
    WordFault::Bad { at, kind }
}
