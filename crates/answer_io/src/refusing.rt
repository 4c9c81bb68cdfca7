//! The answers to words and texts that are refused.

ghost use Rattle.std.specs.Prelude.{◌≡◌};
ghost use Rattle.problem_text.specs.Kinds.{number_of_text, number_of_problem};
ghost use Rattle.solve_words.specs.Kinds.{number_of_words};

use problem_text::TextKind;
use solve_report::Answer;
use solve_words::WordKind;

/// The answer to words that are refused with this position and kind.
pub fn words_answer(at: u64, kind: WordKind) -> Answer
    ensures { result ≡ Answer.Words at (number_of_words kind) }
{
    Answer::Words {
        at,
        kind: kind.number(),
    }
}

/// The answer to a problem text that is refused with this line and kind.
pub fn fault_answer(line: u64, kind: TextKind) -> Answer
    ensures { result ≡ Answer.ProblemText line (number_of_text kind) (number_of_problem kind) }
{
    Answer::ProblemText {
        line,
        kind: kind.number(),
        problem: kind.problem(),
    }
}
