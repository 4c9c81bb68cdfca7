//! The line of a word, and the end of a text.

ghost use Rattle.std.specs.Prelude.{◌≡◌, ◌==◌, length};
ghost use Rattle.std.specs.List.{position};
ghost use Rattle.problem_text.specs.Bytes.{line_feed};
ghost use Rattle.wcsp_text.specs.Words.{words, line_at};
ghost use Rattle.wcsp_text.specs.Networks.{Network};
ghost use Rattle.wcsp_text.specs.Texts.{bytes_to, ended};
ghost use Rattle.wcsp_text.specs.Gives.{Gives};

use crate::fault::{Fault, WcspKind, fault_before};
use crate::word::next_word;
use problem_text::{LF, LineEnd, line_behind};

/// The line of the word after which `after` bytes of the text are left; at the end of the text
/// `after` is 0.
pub fn line_of(bytes: &[u8], after: usize) -> u64
    ensures { result ≡ line_at bytes.now after }
{
    line_behind(bytes.split_at(bytes.len().saturating_sub(after)).0)
}

/// How many bytes a text has up to and including the line with the last word of its network, which
/// is what the text declares; `after` is what follows that word. No further word may be on that
/// line.
pub fn used_of(bytes: &[u8], after: &[u8]) -> Result<usize, LineEnd<Fault>>
    ensures { (w : Network) → Gives (λ used. (w, used)) result
        (ended bytes.now w (length after.now) (words after.now)) }
{
    if let Some((_, further)) = next_word(after) {
        if line_of(bytes, further.len()) == line_of(bytes, after.len()) {
            return Err(fault_before(further, WcspKind::AfterEnd));
        }
    }
    Ok(bytes_with_line(bytes, after.len()))
}

/// How many bytes a text has up to and including the line of the word after which `after` bytes are
/// left.
fn bytes_with_line(bytes: &[u8], after: usize) -> usize
    ensures { result ≡ bytes_to bytes.now (line_at bytes.now after) }
{
    let (front, back) = bytes.split_at(bytes.len().saturating_sub(after));
    match first_line_end(back) {
        Some(end) => front.len() + end + 1,
        None => bytes.len(),
    }
}

fn first_line_end(text: &[u8]) -> Option<usize>
    ensures { result ≡ position (λ b. b == line_feed) text.now }
{
    text.iter().position(|byte| *byte == LF)
}
