//! Dialers in memory with one fault, on the first pair of wires.

use std::alloc::{AllocError, Global};
use wire_pump::{Alter, MemoryDialer, PollFail};

/// A dialer by which this poll of this end fails.
///
/// # Errors
///
/// [`AllocError`] if memory runs out.
pub(crate) fn failing_at(
    alloc: Global,
    first_end: bool,
    poll: u64,
) -> Result<MemoryDialer, AllocError> {
    let fail = PollFail {
        pair: 0,
        first_end,
        poll,
    };
    let polls = vec![in alloc; fail; 1]?;
    Ok(MemoryDialer::new(Vec::new(alloc), polls, Vec::new(alloc)))
}

/// A dialer by which this byte replaces the one at this place of what this end sends.
///
/// # Errors
///
/// [`AllocError`] if memory runs out.
pub(crate) fn altering_at(
    alloc: Global,
    from_first: bool,
    place: u64,
    byte: u8,
) -> Result<MemoryDialer, AllocError> {
    let alter = Alter {
        pair: 0,
        from_first,
        place,
        byte,
    };
    let alters = vec![in alloc; alter; 1]?;
    Ok(MemoryDialer::new(Vec::new(alloc), Vec::new(alloc), alters))
}
