//! Where the certificate of a report begins.

ghost use Rattle.std.specs.Prelude.{◌≡◌, ◌<◌, ◌≤◌, ◌+◌, length};
ghost use Rattle.dcop_base.specs.Limits.{input_limit};
ghost use Rattle.problem_text.specs.Lines.{words};
ghost use Rattle.report_reader.specs.Told.{begins_with};
ghost use Rattle.solve_printed.specs.CertificateLine.{certificate_line, certificate_word};

use problem_text::{is_word, next_plain_line, next_word};

/// The number of the line that begins a certificate in the text of a report, which is the first
/// line that begins with the word `certificate`; 0 if there is none. Lines count from 1.
pub(crate) fn certificate_line(text: &[u8]) -> u64
    requires { length text.now ≤ input_limit }
    ensures line { result ≡ certificate_line text.now }
    ensures within { result ≤ length text.now }
{
    let mut number: u64 = 1;
    let mut rest = text;
    while let Some(line) = next_plain_line(rest, number) {
        if begins_with(line.text, b"certificate") {
            return line.number;
        }
        number = line.number + 1;
        rest = line.after;
    }
    0
}

/// Whether the words of a line begin with this one.
fn begins_with(text: &[u8], key: &[u8]) -> bool
    ensures { result ≡ begins_with key.now (words text.now) }
{
    match next_word(text) {
        None => false,
        Some((word, _)) => is_word(word, key),
    }
}
