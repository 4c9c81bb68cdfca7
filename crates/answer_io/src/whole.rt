//! Reading a whole input as a problem, up to its last line.

ghost use Rattle.std.specs.Prelude.{◌≡◌};
ghost use Rattle.answer_io.specs.Texts.{IsWholeRead};

use crate::after_end::line_after;
use problem_text::{ProblemFile, TextFault, TextKind, read_problem};
use std::alloc::Global;

/// Reads a whole input as a problem file.
///
/// # Errors
///
/// The first fault of the text with its line. If the text up to its line `end` has none,
/// [`TextKind::AfterEnd`] at the first line with words after that line. [`TextFault::NoMemory`] if
/// memory runs out.
pub fn read_whole(alloc: Global, bytes: &[u8]) -> Result<ProblemFile, TextFault>
    ensures { IsWholeRead bytes.now result }
{
    let read = read_problem(alloc, bytes)?;
    match line_after(bytes, read.used) {
        None => Ok(read.file),
        Some(line) => Err(TextFault::Bad {
            line,
            kind: TextKind::AfterEnd,
        }),
    }
}
