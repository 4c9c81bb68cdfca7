//! What is wrong with words that do not form a command.

ghost use Rattle.std.specs.Prelude.{◌≡◌};
ghost use Rattle.solve_words.specs.Kinds.{number_of_words};
ghost use Rattle.solve_words.specs.declared.fault.WordFault.TheVariants.{NoMemory as no_memory};

use std::alloc::AllocFailed;
use thiserror::Error;

/// What is wrong with a word. The number of a kind is its discriminant, from 1 on.
#[derive(Clone, Copy, Debug, PartialEq, Eq, Error)]
pub enum WordKind {
    /// There is no word.
    #[error("no command is given")]
    NoCommand = 1,
    /// The first word is not a command.
    #[error("no such command")]
    UnknownCommand = 2,
    /// A word in the position of an option is not an option.
    #[error("no such option")]
    UnknownOption = 3,
    /// The option is the last word, so it has no value.
    #[error("the option has no value")]
    NoValue = 4,
    /// The option is given a second time.
    #[error("the option is given twice")]
    Twice = 5,
    /// The value must be a number of 1 to 19 digits, and is not one.
    #[error("the value is no number")]
    BadNumber = 6,
    /// The number is outside the option's range.
    #[error("the number is out of range")]
    OutOfRange = 7,
    /// The value is not one of the option's words.
    #[error("the value is none of the choices")]
    BadChoice = 8,
    /// The option does not belong to the command or the method.
    #[error("the option does not go with the command or the method")]
    NotWith = 9,
}

impl WordKind {
    /// The number of the kind, from 1 on.
    pub fn number(self) -> u8
        ensures { result ≡ number_of_words self }
    {
        self as u8
    }
}

/// Why words do not form a command.
#[derive(Clone, Copy, Debug, PartialEq, Eq, Error)]
pub enum WordFault {
    /// The first fault of the words.
    #[error("word {at}: {kind}")]
    Bad {
        /// The position of the word at fault, counted from 1.
        at: u64,
        /// What is wrong there.
        kind: WordKind,
    },
    /// Memory ran out. No clause says when this happens.
    #[error("out of memory")]
    NoMemory,
}

impl<T: Drop> From<AllocFailed<T>> for WordFault {
    ghost from_gives = { λ _ e. e ≡ no_memory };

    fn from(_refused: AllocFailed<T>) -> Self {
        WordFault::NoMemory
    }
}
