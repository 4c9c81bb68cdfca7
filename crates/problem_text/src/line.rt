//! Lines of a text.

ghost use Rattle.std.specs.Prelude.{◌≡◌, length, ◌∷◌, ◌<◌, ◌+◌, ◌==◌, count_by};
ghost use Rattle.std.specs.List.{position, position_or_len};
ghost use Rattle.problem_text.specs.Bytes.{line_feed};
ghost use Rattle.problem_text.specs.Lines.{before_comment, without_last, content, lines};
ghost use Rattle.problem_text.specs.PlainLines.{plain_content};

use memchr::memchr;

/// The byte that ends a line.
pub const LF: u8 = b'\n';

/// A byte that is dropped, once, at the end of a line.
pub const CR: u8 = b'\r';

/// The byte that begins a comment.
pub const HASH: u8 = b'#';

/// The first line of a non-empty text, with its LF, and the text after it.
pub fn first_line(text: &[u8]) -> (&[u8], &[u8])
    requires { 0 < length text.now }
    ensures line { lines text.now ≡ result.0.now ∷ lines result.1.now }
    ensures sizes { length result.0.now + length result.1.now ≡ length text.now }
    ensures some { 0 < length result.0.now }
{
    let end = place_of(text, LF);
    if end < text.len() {
        text.split_at(end + 1)
    } else {
        text.split_at(text.len())
    }
}

/// The content of a line: the line without its LF, one CR at its end, and its comment.
pub fn content_of(line: &[u8]) -> &[u8]
    ensures { result.now ≡ content line.now }
{
    uncommented(plain_content_of(line))
}

/// The content of a line in which no byte begins a comment: the line without its LF and one CR at
/// its end.
pub fn plain_content_of(line: &[u8]) -> &[u8]
    ensures { result.now ≡ plain_content line.now }
{
    stripped(stripped(line, LF), CR)
}

fn stripped(bytes: &[u8], last: u8) -> &[u8]
    ensures { result.now ≡ without_last last bytes.now }
{
    match bytes.split_last() {
        Some((byte, front)) => { if *byte == last { front } else { bytes } }
        None => bytes,
    }
}

fn uncommented(bytes: &[u8]) -> &[u8]
    ensures { result.now ≡ before_comment bytes.now }
{
    bytes.split_at(place_of(bytes, HASH)).0
}

/// The first position of a byte, or the length if the byte does not occur.
fn place_of(bytes: &[u8], sought: u8) -> usize
    ensures { result ≡ position_or_len (λ b. b == sought) bytes.now }
{
    found(bytes, sought).unwrap_or(bytes.len())
}

fn found(bytes: &[u8], sought: u8) -> Option<usize>
    ensures { result ≡ position (λ b. b == sought) bytes.now }
{
    memchr(sought, bytes)
}

/// The number of the line that follows a text: 1 plus the number of its LF bytes.
pub fn line_behind(text: &[u8]) -> u64
    ensures { result ≡ 1 + count_by (λ b. b == line_feed) text.now }
{
    1 + text.iter().filter(|byte| **byte == LF).count() as u64
}
