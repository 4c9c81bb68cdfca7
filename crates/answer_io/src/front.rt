//! The problem that an input begins with.

ghost use Rattle.std.specs.Prelude.{◌≡◌, ◌≤◌, length, IfOk};
ghost use Rattle.answer_io.specs.Fronts.{front_read, lines_in};
ghost use Rattle.answer_io.specs.Gives.{IsInputFront};

use crate::fault::InputFault;
use problem_text::{ReadFile, read_problem};
use solve_words::Format;
use std::alloc::Global;
use wcsp_text::read_wcsp;

/// Reads the problem that an input in this format begins with, and counts the bytes up to the end
/// of its last line. What follows that line is not read.
///
/// # Errors
///
/// The first fault of the text with its line; [`InputFault::NoMemory`] if memory runs out.
pub fn read_front(alloc: Global, format: Format, bytes: &[u8]) -> Result<ReadFile, InputFault>
    ensures read { IsInputFront (front_read format bytes.now) result }
    ensures within { IfOk result (λ read. read.used ≤ length bytes.now) }
{
    match format {
        Format::Dcop => own_front(alloc, bytes),
        Format::Wcsp => wcsp_front(alloc, bytes),
    }
}

/// How many line feeds a text has.
pub fn lines_in(text: &[u8]) -> u64
    ensures { result ≡ lines_in text.now }
{
    text.iter().filter(|byte| **byte == b'\n').count() as u64
}

fn own_front(alloc: Global, bytes: &[u8]) -> Result<ReadFile, InputFault>
    ensures read { IsInputFront (front_read Format.Dcop bytes.now) result }
    ensures within { IfOk result (λ read. read.used ≤ length bytes.now) }
{
    let read = read_problem(alloc, bytes)?;
    Ok(read)
}

fn wcsp_front(alloc: Global, bytes: &[u8]) -> Result<ReadFile, InputFault>
    ensures read { IsInputFront (front_read Format.Wcsp bytes.now) result }
    ensures within { IfOk result (λ read. read.used ≤ length bytes.now) }
{
    let read = read_wcsp(alloc, bytes)?;
    Ok(ReadFile {
        file: read.file,
        used: read.used,
    })
}
