//! The table of options: their words, values, defaults, commands and methods.

ghost use Rattle.std.specs.Prelude.{◌≡◌, find, bytes_eq, option_copied};
ghost use Rattle.solve_words.specs.Options.{word_of, option_named, numbers_of};
ghost use Rattle.solve_words.specs.Standing.{commands_of, refused_with, belongs_to, stands_with};

use crate::command::Choice;
use crate::verb::Verb;
use dcop_base::{CAP, MAX_BUDGET, MAX_JOINED_CELLS, MAX_VARIABLES};

/// An option.
#[derive(Clone, Copy, Debug)]
pub enum WordOption {
    /// How a problem is solved.
    Method,
    /// Whether the report has a certificate, `yes` or `no`.
    Certificate,
    /// The text format of the problem.
    Format,
    /// After how many events a replay stops.
    After,
    /// A number with a default.
    Number(Quantity),
}

/// An option that takes a number and has a default.
#[derive(Clone, Copy, Debug)]
pub enum Quantity {
    Workers,
    Error,
    Budget,
    Nodes,
    Seed,
    Vars,
    Size,
    Degree,
    Top,
    Cells,
}

/// Each option once.
const OPTIONS: [WordOption; 14] = [
    WordOption::Method,
    WordOption::Certificate,
    WordOption::Format,
    WordOption::After,
    WordOption::Number(Quantity::Workers),
    WordOption::Number(Quantity::Error),
    WordOption::Number(Quantity::Budget),
    WordOption::Number(Quantity::Nodes),
    WordOption::Number(Quantity::Seed),
    WordOption::Number(Quantity::Vars),
    WordOption::Number(Quantity::Size),
    WordOption::Number(Quantity::Degree),
    WordOption::Number(Quantity::Top),
    WordOption::Number(Quantity::Cells),
];

impl WordOption {
    /// The word that names the option.
    pub fn word(self) -> &'static str
        ensures { result.now ≡ word_of self }
    {
        match self {
            WordOption::Method => "--method",
            WordOption::Certificate => "--certificate",
            WordOption::Format => "--format",
            WordOption::After => "--after",
            WordOption::Number(Quantity::Workers) => "--workers",
            WordOption::Number(Quantity::Error) => "--error",
            WordOption::Number(Quantity::Budget) => "--budget",
            WordOption::Number(Quantity::Nodes) => "--nodes",
            WordOption::Number(Quantity::Seed) => "--seed",
            WordOption::Number(Quantity::Vars) => "--vars",
            WordOption::Number(Quantity::Size) => "--size",
            WordOption::Number(Quantity::Degree) => "--degree",
            WordOption::Number(Quantity::Top) => "--top",
            WordOption::Number(Quantity::Cells) => "--cells",
        }
    }

    /// The option that a word names; `None` exactly when no option has this name.
    pub fn named(word: &str) -> Option<WordOption>
        ensures { result ≡ option_named word.now }
    {
        first_named(&OPTIONS, word)
    }

    /// The commands that take the option.
    fn commands(self) -> &'static [Verb]
        ensures { result.now ≡ commands_of self }
    {
        match self {
            WordOption::Certificate => &[Verb::Solve],
            WordOption::Format => &[
                Verb::Solve,
                Verb::Tree,
                Verb::Check,
                Verb::Replay,
                Verb::Upgrade,
            ],
            WordOption::After => &[Verb::Replay],
            WordOption::Number(Quantity::Workers) => &[Verb::Solve, Verb::Tree, Verb::Drill],
            WordOption::Method
            | WordOption::Number(
                Quantity::Error | Quantity::Budget | Quantity::Nodes | Quantity::Cells,
            ) => &[Verb::Solve, Verb::Drill],
            WordOption::Number(
                Quantity::Seed | Quantity::Vars | Quantity::Size | Quantity::Degree | Quantity::Top,
            ) => &[Verb::Drill],
        }
    }

    /// The methods with which the option may not be given.
    fn refused_with(self) -> &'static [Choice]
        ensures { result.now ≡ refused_with self }
    {
        match self {
            WordOption::Certificate => &[Choice::Plain],
            WordOption::Number(Quantity::Error | Quantity::Budget) => {
                &[Choice::Plain, Choice::Dpop, Choice::Cut]
            }
            WordOption::Number(Quantity::Nodes) => &[Choice::Plain, Choice::Cut],
            WordOption::Number(Quantity::Cells) => {
                &[Choice::Plain, Choice::Dpop, Choice::Adopt, Choice::Auto]
            }
            _ => &[],
        }
    }

    /// Whether a command takes the option.
    pub fn belongs_to(self, verb: Verb) -> bool
        ensures { result ≡ belongs_to verb self }
    {
        self.commands().contains(&verb)
    }

    /// Whether the option may be given if a problem is solved by this method.
    pub fn stands_with(self, method: Choice) -> bool
        ensures { result ≡ stands_with method self }
    {
        !self.refused_with().contains(&method)
    }
}

/// The first of these options that a word names.
fn first_named(options: &[WordOption], word: &str) -> Option<WordOption>
    ensures { result ≡ find (λ option. bytes_eq (word_of option) word.now) options.now }
{
    options.iter().copied().find(|option| option.word() == word)
}

/// The most events that a replay can be asked to play.
pub(crate) const MOST_EVENTS: u64 = 1_000_000_000;

/// The range of an option's number, and its value if the option is not given.
#[derive(Clone, Copy, Debug)]
pub struct Numbers {
    pub least: u64,
    pub most: u64,
    pub default: u64,
}

impl Quantity {
    /// The numbers that the option takes, and its default.
    pub fn numbers(self) -> Numbers
        ensures { result ≡ numbers_of self }
    {
        let (least, most, default) = match self {
            Quantity::Workers => (1, 64, 1),
            Quantity::Error => (0, CAP, 0),
            Quantity::Budget => (0, MAX_BUDGET, 1_000_000),
            Quantity::Nodes => (1, 8, 1),
            Quantity::Seed => (0, 9_999_999_999_999_999_999, 0),
            Quantity::Vars => (1, MAX_VARIABLES as u64, 20),
            Quantity::Size => (1, 16, 4),
            Quantity::Degree => (1, 8, 2),
            Quantity::Top => (0, 1_000_000, 100),
            Quantity::Cells => (1024, MAX_JOINED_CELLS, MAX_JOINED_CELLS),
        };
        Numbers {
            least,
            most,
            default,
        }
    }
}
