//! Reading a whole input as a problem.

ghost use Rattle.answer_io.specs.Gives.{IsInput};
ghost use Rattle.answer_io.specs.Inputs.{input_read};

use crate::fault::InputFault;
use crate::further::further_line;
use crate::whole::read_whole;
use problem_text::ProblemFile;
use solve_words::Format;
use std::alloc::Global;
use wcsp_text::{WcspKind, read_wcsp};

/// A problem, read from a whole input.
#[derive(Debug, Drop)]
pub struct ReadInput {
    pub file: ProblemFile,
    /// The bar of a WCSP text: the WCSP value of an assignment is its cost if that is below the
    /// bar, and top otherwise. `None` for a problem text.
    pub bar: Option<u64>,
}

/// Reads a whole input in this format as a problem.
///
/// # Errors
///
/// The first fault of the text with its line. If there is none, kind 8 at the first line of a
/// problem text with words after its line `end`, or at the first word after a WCSP text.
/// [`InputFault::NoMemory`] if memory runs out.
pub fn read_input(alloc: Global, format: Format, bytes: &[u8]) -> Result<ReadInput, InputFault>
    ensures { IsInput (input_read format bytes.now) result }
{
    match format {
        Format::Dcop => own_input(alloc, bytes),
        Format::Wcsp => wcsp_input(alloc, bytes),
    }
}

fn own_input(alloc: Global, bytes: &[u8]) -> Result<ReadInput, InputFault>
    ensures { IsInput (input_read Format.Dcop bytes.now) result }
{
    let file = read_whole(alloc, bytes)?;
    Ok(ReadInput { file, bar: None })
}

fn wcsp_input(alloc: Global, bytes: &[u8]) -> Result<ReadInput, InputFault>
    ensures { IsInput (input_read Format.Wcsp bytes.now) result }
{
    let read = read_wcsp(alloc, bytes)?;
    match further_line(bytes, read.used) {
        None => Ok(ReadInput {
            file: read.file,
            bar: Some(read.bar),
        }),
        Some(line) => Err(InputFault::Wcsp {
            line,
            kind: WcspKind::AfterEnd,
        }),
    }
}
