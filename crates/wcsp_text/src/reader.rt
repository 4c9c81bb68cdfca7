//! The reader of a text.

ghost use Rattle.std.specs.Prelude.{◌≡◌, IfOk};
ghost use Rattle.wcsp_text.specs.Files.{file_of, Reads, HasValues};
ghost use Rattle.wcsp_text.specs.Read.{GivesFile};

use crate::ending::{line_of, used_of};
use crate::fault::{Fault, WcspFault};
use crate::network::network_of;
use crate::problem::problem_of;
use crate::raising::hard_of;
use dcop_base::{NoMemory, Problem, problem_is_whole};
use problem_text::{LineEnd, ProblemFile};
use std::alloc::Global;

/// A file that was read from a WCSP text.
#[derive(Debug, Drop)]
pub struct ReadWcsp {
    /// The problem, whose variables are named v0, v1 and so on, in version 2.
    pub file: ProblemFile,
    /// The WCSP value of an assignment is its cost if that is below the bar, and top otherwise.
    pub bar: u64,
    /// How many bytes the text has up to and including the line of the last word.
    pub used: usize,
}

/// Reads a WCSP text.
///
/// A function becomes a table over its scope. A cell has the cost of the last tuple that names it,
/// or the default cost if no tuple does. A function of no variables becomes a table on variable 0
/// with its cost in every cell. A cell of at least `top` becomes 1 plus the sum of the functions'
/// greatest cells below `top`; the bar is the lesser of that cost and `top`. The bytes after the
/// line of the last word are not examined.
///
/// # Errors
///
/// [`WcspFault::Bad`] with the line and the kind of the first fault, in the order of the words;
/// [`WcspFault::NoMemory`] if memory runs out.
pub fn read_wcsp(alloc: Global, bytes: &[u8]) -> Result<ReadWcsp, WcspFault>
    ensures reads { Reads bytes.now result }
    ensures values { IfOk result (λ r. HasValues bytes.now r) }
{
    match file_in(alloc, bytes) {
        Ok(read) => {
            problem_is_whole(&read.file.problem);
            Ok(read)
        }
        Err(LineEnd::Fault(fault)) => Err(WcspFault::Bad {
            line: line_of(bytes, fault.after),
            kind: fault.kind,
        }),
        Err(LineEnd::NoMemory) => Err(WcspFault::NoMemory),
    }
}

/// The file that a text gives.
fn file_in(alloc: Global, bytes: &[u8]) -> Result<ReadWcsp, LineEnd<Fault>>
    ensures { GivesFile bytes.now result }
{
    let read = network_of(alloc, bytes)?;
    let network = read.network;
    let top = network.top;
    let hard = hard_of(network.functions.as_slice(), top);
    let problem = problem_of(alloc, network, hard)?;
    let used = used_of(bytes, read.after)?;
    let file = numbered(alloc, problem)?;
    Ok(ReadWcsp {
        file,
        bar: hard.min(top),
        used,
    })
}

/// The file of a problem with numbered names, in version 2.
fn numbered(alloc: Global, problem: Problem) -> Result<ProblemFile, NoMemory>
    ensures { IfOk result (λ file. file ≡ file_of problem) }
{
    let ProblemFile {
        version: _,
        goal,
        names,
        labels,
        problem,
    } = ProblemFile::numbered(alloc, problem)?;
    Ok(ProblemFile {
        version: 2,
        goal,
        names,
        labels,
        problem,
    })
}
