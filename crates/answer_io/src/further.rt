//! A further word after a WCSP text.

ghost use Rattle.std.specs.Prelude.{◌≡◌, ◌≤◌, length};
ghost use Rattle.answer_io.specs.Inputs.{further_line};

use problem_text::line_behind;
use wcsp_text::next_word;

/// The line of the first word after the first `used` bytes of a text; `None` exactly when there is
/// none.
pub(crate) fn further_line(bytes: &[u8], used: usize) -> Option<u64>
    requires { used ≤ length bytes.now }
    ensures { result ≡ further_line bytes.now used }
{
    let (_, behind) = bytes.split_at(used);
    let Some((_, after)) = next_word(behind) else {
        return None;
    };
    let (before, _) = bytes.split_at(bytes.len().saturating_sub(after.len()));
    Some(line_behind(before))
}
