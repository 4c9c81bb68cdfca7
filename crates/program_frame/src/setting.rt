//! Options of a program, with the values that words give them.

ghost use Rattle.std.specs.Prelude.{◌≡◌, find, option_copied, bytes_eq};
ghost use Rattle.program_frame.specs.Settings.{word_of, number_setting, format_setting, setting_named, value_given, number_given, format_given};

use solve_words::Format;

/// The name of an option. Each program takes some of them.
#[derive(Clone, Copy, Debug, PartialEq, Eq)]
pub enum OptionName {
    Tries,
    Seed,
    Error,
    Budget,
    Cells,
    Better,
    From,
    To,
    Format,
}

impl OptionName {
    /// The word that names the option.
    pub fn word(self) -> &'static str
        ensures { result.now ≡ word_of self }
    {
        match self {
            OptionName::Tries => "--tries",
            OptionName::Seed => "--seed",
            OptionName::Error => "--error",
            OptionName::Budget => "--budget",
            OptionName::Cells => "--cells",
            OptionName::Better => "--better",
            OptionName::From => "--from",
            OptionName::To => "--to",
            OptionName::Format => "--format",
        }
    }
}

/// What an option takes.
#[derive(Clone, Copy, Debug, PartialEq, Eq)]
pub enum Takes {
    /// A number from `least` to `most`.
    Number { least: u64, most: u64 },
    /// The name of a format.
    Format,
}

/// The value of an option.
#[derive(Clone, Copy, Debug, PartialEq, Eq)]
pub enum OptionValue {
    Number(u64),
    Format(Format),
}

/// An option of a program, with the value that words have given it so far.
#[derive(Clone, Copy, Debug, PartialEq, Eq)]
pub struct Setting {
    pub name: OptionName,
    pub takes: Takes,
    pub value: Option<OptionValue>,
}

impl Setting {
    /// An option that takes a number from `least` to `most`. It has no value yet.
    pub fn number(name: OptionName, least: u64, most: u64) -> Setting
        ensures { result ≡ number_setting name least most }
    {
        Setting {
            name,
            takes: Takes::Number { least, most },
            value: None,
        }
    }

    /// The option `--format`. It has no value yet.
    pub fn format() -> Setting
        ensures { result ≡ format_setting }
    {
        Setting {
            name: OptionName::Format,
            takes: Takes::Format,
            value: None,
        }
    }
}

/// The first of these options that a word names.
pub(crate) fn setting_named(settings: &[Setting], word: &str) -> Option<Setting>
    ensures { result ≡ setting_named word.now settings.now }
{
    settings
        .iter()
        .copied()
        .find(|setting| setting.name.word() == word)
}

/// The value that words gave an option, if they gave one.
fn value_given(settings: &[Setting], name: OptionName) -> Option<OptionValue>
    ensures { result ≡ value_given name settings.now }
{
    match setting_named(settings, name.word()) {
        Some(setting) => setting.value,
        None => None,
    }
}

/// The number that words gave an option, if they gave one.
pub fn number_given(settings: &[Setting], name: OptionName) -> Option<u64>
    ensures { result ≡ number_given name settings.now }
{
    match value_given(settings, name) {
        Some(OptionValue::Number(number)) => Some(number),
        _ => None,
    }
}

/// The format that words gave, if they gave one.
pub fn format_given(settings: &[Setting]) -> Option<Format>
    ensures { result ≡ format_given settings.now }
{
    match value_given(settings, OptionName::Format) {
        Some(OptionValue::Format(format)) => Some(format),
        _ => None,
    }
}
