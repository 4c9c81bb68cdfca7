//! The words of `dcop_trace`.

ghost use Rattle.std.specs.Prelude.{◌≡◌, map, string_bytes};
ghost use Rattle.trace_top.specs.Words.{asked_by, trace_answer_to};

use program_frame::{OptionName, Setting, format_given, number_given, read_settings};
use solve_words::{Format, WordFault};

/// The greatest number of an event that words can ask for.
const MOST_EVENTS: u64 = 1_000_000_000;

/// What words ask for.
#[derive(Clone, Copy, Debug, PartialEq, Eq)]
pub struct Asked {
    /// The number of the first event that is written: 0 to 1,000,000,000, counted from 1. With 0
    /// the starts of all agents are written first.
    pub from: u64,
    /// The number of the last event that is played and written: 0 to 1,000,000,000. If the log has
    /// fewer events, all are.
    pub to: u64,
    /// The format of the problem.
    pub format: Format,
}

/// What words ask for, or their first fault. They are pairs of an option and its value.
pub(crate) fn read_trace_words(words: &[String]) -> Result<Asked, WordFault>
    ensures { result ≡ trace_answer_to (map string_bytes words.now) }
{
    let mut settings = [
        Setting::number(OptionName::From, 0, MOST_EVENTS),
        Setting::number(OptionName::To, 0, MOST_EVENTS),
        Setting::format(),
    ];
    read_settings(&mut settings, words)?;
    Ok(asked_by(&settings))
}

/// What is asked for, with the default of each value that was not given: all events, and problem
/// text.
fn asked_by(settings: &[Setting]) -> Asked
    ensures { result ≡ asked_by settings.now }
{
    Asked {
        from: number_given(settings, OptionName::From).unwrap_or(0),
        to: number_given(settings, OptionName::To).unwrap_or(MOST_EVENTS),
        format: format_given(settings).unwrap_or(Format::Dcop),
    }
}
