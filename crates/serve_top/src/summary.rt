//! The summary of a server's sessions.

ghost use Rattle.std.specs.Prelude.{◌≡◌, ◌<◌, ◌≤◌, ◌+◌, ◌^◌, ◌++◌, length, OnOk, IfOk};
ghost use Rattle.std.specs.String.{string_bytes};
ghost use Rattle.solve_serve.specs.Session.{served_by};
ghost use Rattle.serve_top.specs.Text.{end_word, session_line, session_lines, served_in, summary_text};

use dcop_base::NoMemory;
use solve_serve::SessionEnd;

/// Writes the summary of sessions with these ends and this many looks.
pub(crate) fn write_summary(
    text: &mut String,
    ends: &[SessionEnd],
    looks: u64,
) -> Result<(), NoMemory>
    requires { served_in ends.now < 2 ^ 64 }
    ensures { OnOk result (string_bytes text.new ≡ string_bytes text.old ++ summary_text ends.now looks) }
{
    write_sessions(text, 0, ends)?;
    let served = served_in(ends);
    write!(text, "served {served}\nlooks {looks}\nend\n")?;
    Ok(())
}

/// Writes the lines of sessions, numbered from `number` on.
fn write_sessions(text: &mut String, number: u64, ends: &[SessionEnd]) -> Result<(), NoMemory>
    requires { number + length ends.now < 2 ^ 64 }
    ensures { OnOk result (string_bytes text.new ≡ string_bytes text.old ++ session_lines number ends.now) }
{
    let Some((end, rest)) = ends.split_first() else {
        return Ok(());
    };
    write_session(text, number, *end)?;
    write_sessions(text, number + 1, rest)
}

/// Writes the line of one session.
fn write_session(text: &mut String, number: u64, end: SessionEnd) -> Result<(), NoMemory>
    ensures { OnOk result (string_bytes text.new ≡ string_bytes text.old ++ session_line number end) }
{
    let word = end_word(end);
    let served = served_by(end);
    write!(text, "session {number} {word} {served}\n")?;
    Ok(())
}

/// The word for an end.
fn end_word(end: SessionEnd) -> &'static str
    ensures { result.now ≡ end_word end }
{
    match end {
        SessionEnd::Closed { .. } => "closed",
        SessionEnd::Cut { .. } => "cut",
        SessionEnd::Long { .. } => "long",
        SessionEnd::Limit { .. } => "limit",
        SessionEnd::Read { .. } => "read",
        SessionEnd::Write { .. } => "write",
        SessionEnd::Memory { .. } => "memory",
    }
}

/// How many requests a session served.
fn served_by(end: SessionEnd) -> u64
    ensures { result ≡ served_by end }
{
    match end {
        SessionEnd::Closed { served }
        | SessionEnd::Cut { served }
        | SessionEnd::Long { served, .. }
        | SessionEnd::Limit { served }
        | SessionEnd::Read { served }
        | SessionEnd::Write { served }
        | SessionEnd::Memory { served } => served,
    }
}

/// How many requests all sessions served.
fn served_in(ends: &[SessionEnd]) -> u64
    requires { served_in ends.now < 2 ^ 64 }
    ensures { result ≡ served_in ends.now }
{
    match ends.split_first() {
        Some((end, rest)) => served_by(*end) + served_in(rest),
        None => 0,
    }
}
