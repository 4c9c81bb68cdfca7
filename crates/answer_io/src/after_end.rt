//! What follows the line `end` of a problem text.

ghost use Rattle.std.specs.Prelude.{◌≡◌, option_map};
ghost use Rattle.answer_io.specs.Whole.{line_after};

use problem_text::next_line;

/// Of the lines of a text that have words and end behind its first `used` bytes, the number of the
/// first; `None` exactly when there is no such line. Lines count from 1.
pub fn line_after(text: &[u8], used: usize) -> Option<u64>
    ensures { result ≡ option_map (λ line. line.number) (line_after text.now used) }
{
    let mut number: u64 = 1;
    let mut at = 0;
    let mut rest = text;
    while let Some(line) = next_line(rest, number, at) {
        if used < line.used {
            return Some(line.number);
        }
        number = line.number + 1;
        at = line.used;
        rest = line.after;
    }
    None
}
