//! Pairs of an option and its value, read from left to right.

ghost use Rattle.std.specs.Prelude.{◌≡◌, ℕ, List, [], map, ◌<◌, length, slice_get, OnOk, find, bytes_eq, ◌≤◌, string_bytes, IfOk, IfErr, MatchResult};
ghost use Rattle.std.specs.List.{list_any};
ghost use Rattle.dcop_base.specs.NumberWord.{number_of};
ghost use Rattle.solve_words.specs.Options.{word_of};
ghost use Rattle.solve_words.specs.Settings.{option_of, pair_of, pairs_of, setting_by, settings_of};
ghost use Rattle.solve_words.specs.Faults.{range_fault, value_fault, pairs_fault};
ghost use Rattle.solve_words.specs.Reading.{words_of, IsWithin, IsFault, IsRead, ReadsPair};

use crate::command::{Choice, Format, yes_or_no};
use crate::fault::{WordFault, WordKind};
use crate::options::{MOST_EVENTS, Quantity, WordOption};
use crate::verb::Verb;
use dcop_base::number_of_word;
use std::alloc::Global;

/// An option with the value that it is given.
#[derive(Clone, Copy, Debug)]
pub enum Setting {
    Method(Choice),
    Certificate(bool),
    Format(Format),
    After(u64),
    Number(Quantity, u64),
}

impl Setting {
    /// The option.
    pub fn option(self) -> WordOption
        ensures { result ≡ option_of self }
    {
        match self {
            Setting::Method(_) => WordOption::Method,
            Setting::Certificate(_) => WordOption::Certificate,
            Setting::Format(_) => WordOption::Format,
            Setting::After(_) => WordOption::After,
            Setting::Number(quantity, _) => WordOption::Number(quantity),
        }
    }
}

/// The settings that the words after the command give, or their first fault.
pub fn read_settings(alloc: Global, verb: Verb, words: &[String]) -> Result<Vec<Setting>, WordFault>
    ensures whole { IfOk result (λ settings.
        IsRead verb (map string_bytes words.now) settings.items) }
    ensures fault { IfErr result (λ fault.
        IsFault fault (pairs_fault verb [] (pairs_of (map string_bytes words.now)))) }
{
    let mut settings = Vec::new(alloc);
    let mut rest = words;
    while let Some((name, behind)) = rest.split_first() {
        let setting = read_pair(verb, settings.as_slice(), name.as_str(), behind)?;
        settings.push(setting)?;
        rest = &behind[1..];
    }
    Ok(settings)
}

/// The setting of an option after these settings, or its first fault.
///
/// The value is the first word after the option.
fn read_pair(
    verb: Verb,
    earlier: &[Setting],
    name: &str,
    behind: &[String],
) -> Result<Setting, WordFault>
    ensures valued { OnOk result (0 < length behind.now) }
    ensures read { ReadsPair verb (words_of earlier.now)
        (pair_of name.now (slice_get (map string_bytes behind.now) 0)) result }
{
    let at = 2 + 2 * earlier.len() as u64;
    let Some(option) = WordOption::named(name) else {
        return Err(WordFault::Bad {
            at,
            kind: WordKind::UnknownOption,
        });
    };
    if !option.belongs_to(verb) {
        return Err(WordFault::Bad {
            at,
            kind: WordKind::NotWith,
        });
    }
    if came_before(earlier, name) {
        return Err(WordFault::Bad {
            at,
            kind: WordKind::Twice,
        });
    }
    let Some(word) = behind.first() else {
        return Err(WordFault::Bad {
            at,
            kind: WordKind::NoValue,
        });
    };
    match read_value(option, word.as_str()) {
        Ok(setting) => Ok(setting),
        Err(kind) => Err(WordFault::Bad { at: at + 1, kind }),
    }
}

/// Whether one of these settings is for the option that this word names.
fn came_before(earlier: &[Setting], name: &str) -> bool
    ensures { result
        ≡ list_any (λ setting. bytes_eq (word_of (option_of setting)) name.now) earlier.now }
{
    earlier
        .iter()
        .any(|setting| setting.option().word() == name)
}

/// The setting of the option that this word names, if it is among these.
pub fn find_setting(settings: &[Setting], name: &str) -> Option<Setting>
    ensures { result
        ≡ find (λ setting. bytes_eq (word_of (option_of setting)) name.now) settings.now }
{
    settings
        .iter()
        .copied()
        .find(|setting| setting.option().word() == name)
}

/// The setting that a word gives an option, or what is wrong with the word.
fn read_value(option: WordOption, word: &str) -> Result<Setting, WordKind>
    ensures { MatchResult result
        (λ setting. (value_fault option word.now ≡ None)
        × (setting_by option word.now ≡ Some setting)
        × (option_of setting ≡ option) × IsWithin setting)
        (λ kind. value_fault option word.now ≡ Some kind) }
{
    match option {
        WordOption::Method => match Choice::named(word) {
            Some(choice) => Ok(Setting::Method(choice)),
            None => Err(WordKind::BadChoice),
        },
        WordOption::Certificate => match yes_or_no(word) {
            Some(wanted) => Ok(Setting::Certificate(wanted)),
            None => Err(WordKind::BadChoice),
        },
        WordOption::Format => match Format::named(word) {
            Some(format) => Ok(Setting::Format(format)),
            None => Err(WordKind::BadChoice),
        },
        WordOption::After => Ok(Setting::After(number_within(word, 0, MOST_EVENTS)?)),
        WordOption::Number(quantity) => {
            let numbers = quantity.numbers();
            let number = number_within(word, numbers.least, numbers.most)?;
            Ok(Setting::Number(quantity, number))
        }
    }
}

/// The number that a word writes, from `least` to `most`, or what is wrong with the word.
fn number_within(word: &str, least: u64, most: u64) -> Result<u64, WordKind>
    ensures { MatchResult result
        (λ number. (range_fault least most (number_of word.now) ≡ None)
        × (number_of word.now ≡ Some number) × (least ≤ number) × (number ≤ most))
        (λ kind. range_fault least most (number_of word.now) ≡ Some kind) }
{
    match number_of_word(word.as_bytes()) {
        None => Err(WordKind::BadNumber),
        Some(number) if number < least || number > most => Err(WordKind::OutOfRange),
        Some(number) => Ok(number),
    }
}
