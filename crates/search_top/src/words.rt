//! The words of `dcop_search`.

ghost use Rattle.std.specs.Prelude.{◌≡◌, map, string_bytes};
ghost use Rattle.search_top.specs.Words.{asked_by, search_answer_to};

use dcop_base::CAP;
use program_frame::{OptionName, Setting, format_given, number_given, read_settings};
use search_stages::Asked;
use solve_words::{Format, WordFault};

/// What the words ask for, or their first fault. They are pairs of an option and its value.
pub(crate) fn read_search_words(words: &[String]) -> Result<Asked, WordFault>
    ensures { result ≡ search_answer_to (map string_bytes words.now) }
{
    let mut settings = [
        Setting::number(OptionName::Error, 0, CAP),
        Setting::number(OptionName::Budget, 1, 1_000_000_000_000),
        Setting::number(OptionName::Cells, 1024, 268_435_456),
        Setting::number(OptionName::Better, 0, CAP),
        Setting::format(),
    ];
    read_settings(&mut settings, words)?;
    Ok(asked_by(&settings))
}

/// What is asked for, with the default for each value that was not given.
fn asked_by(settings: &[Setting]) -> Asked
    ensures { result ≡ asked_by settings.now }
{
    Asked {
        error: number_given(settings, OptionName::Error).unwrap_or(0),
        budget: number_given(settings, OptionName::Budget).unwrap_or(100_000_000),
        cells: number_given(settings, OptionName::Cells).unwrap_or(16_777_216),
        better: number_given(settings, OptionName::Better),
        format: format_given(settings).unwrap_or(Format::Dcop),
    }
}
