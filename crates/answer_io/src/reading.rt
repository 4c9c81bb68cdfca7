//! Reading a source to its end.

ghost use Rattle.std.specs.Prelude.{◌≡◌};
ghost use Rattle.answer_io.specs.Input.{IsReading, source_state};

use dcop_base::Bytes;
pub use dcop_base::MAX_INPUT;
use dcop_edge::{ReadFault, Source};
use std::alloc::Global;

/// The most bytes of one read.
const BLOCK: usize = 65_536;

/// Why a source was not read to its end.
#[derive(Clone, Copy, Debug, PartialEq, Eq)]
pub enum ReadEnd {
    /// The source failed.
    Failed,
    /// More than [`MAX_INPUT`] bytes came.
    TooLong,
    /// Memory ran out.
    NoMemory,
}

impl From<ReadFault> for ReadEnd {
    ghost use Rattle.answer_io.specs.Input.{end_of};

    ghost from_gives = { λ fault e. e ≡ end_of fault };

    fn from(fault: ReadFault) -> Self {
        match fault {
            ReadFault::Failed => ReadEnd::Failed,
            ReadFault::NoMemory => ReadEnd::NoMemory,
        }
    }
}

/// Reads all bytes that the source has left, unless they are more than [`MAX_INPUT`]. Each read but
/// the last takes at least one byte, and reading stops with the first read that takes the total
/// above [`MAX_INPUT`].
///
/// # Errors
///
/// [`ReadEnd::Failed`] if the source fails, and [`ReadEnd::NoMemory`] if memory runs out; at most
/// [`MAX_INPUT`] bytes were then taken. [`ReadEnd::TooLong`] if more than [`MAX_INPUT`] bytes came,
/// and at most 65,536 above that limit.
pub fn read_all<S: Source>(alloc: Global, source: &mut S) -> Result<Bytes, ReadEnd>
    ensures { IsReading result
        (source_state (S.left source.old) (S.faults source.old) (S.gave source.old))
        (source_state (S.left source.new) (S.faults source.new) (S.gave source.new)) }
{
    let mut bytes = Vec::new(alloc);
    while bytes.len() <= MAX_INPUT {
        if source.read_behind(&mut bytes, BLOCK)? == 0 {
            return Ok(Bytes::from_vec(bytes));
        }
    }
    Err(ReadEnd::TooLong)
}
