//! Numbers among the words of a text.

ghost use Rattle.std.specs.Prelude.{◌≡◌};
ghost use Rattle.wcsp_text.specs.Words.{words};
ghost use Rattle.wcsp_text.specs.Numbers.{place, number};
ghost use Rattle.wcsp_text.specs.Gives.{Gives};

use crate::fault::{Fault, WcspKind, fault_before};
use crate::word::next_word;
use dcop_base::number_of_word;
use problem_text::LineEnd;

/// A number, and the text after its word.
#[derive(Clone, Copy, Debug)]
pub struct Number<'a> {
    pub value: u64,
    pub after: &'a [u8],
}

/// The number that the first word of a text writes.
pub fn next_number(text: &[u8]) -> Result<Number<'_>, LineEnd<Fault>>
    ensures { Gives (λ n. (n.value, place n.after.now)) result (number (words text.now)) }
{
    let Some((word, after)) = next_word(text) else {
        return Err(LineEnd::Fault(Fault {
            after: 0,
            kind: WcspKind::NoEnd,
        }));
    };
    match number_of_word(word) {
        Some(value) => Ok(Number { value, after }),
        None => Err(fault_before(after, WcspKind::BadNumber)),
    }
}
