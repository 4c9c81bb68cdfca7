//! The rows of two nodes: a run over sockets, and runs in memory with one fault, at each place in
//! turn.

use crate::host::Host;
use crate::wires::answers::{Answer, answer_over};
use crate::wires::dialers::{altering_at, failing_at};
use anyhow::{Result, bail};
use tcp_wire::TcpDialer;

/// No row has as many polls or bytes.
const MOST: u64 = 1_000;

/// How many runs over sockets of this machine are answered as over wires without a fault: the one
/// that is made.
pub(crate) fn over_sockets<R: Host>(rt: &R) -> Result<u64> {
    match answer_over(rt, &mut TcpDialer::new())? {
        Answer::Solved => Ok(1),
        Answer::Link => bail!("a link fails"),
        Answer::Differs => bail!("something differs"),
    }
}

/// How many polls this end makes if none fails. If any one of them fails, the answer is that a link
/// failed.
pub(crate) fn failing_polls<R: Host>(rt: &R, first_end: bool) -> Result<u64> {
    for poll in 0..MOST {
        match answer_with_failing(rt, first_end, poll)? {
            Answer::Link => {}
            Answer::Solved => return Ok(poll),
            Answer::Differs => bail!("poll {poll} fails, and something differs"),
        }
    }
    bail!("more polls than {MOST}")
}

/// How many bytes this end sends. If the last bit of any one of them is altered, the answer is that
/// something differs.
pub(crate) fn altered_bytes<R: Host>(rt: &R, from_first: bool) -> Result<u64> {
    for place in 0..MOST {
        let byte = byte_at(rt, from_first, place)?;
        match answer_with_byte(rt, from_first, place, byte ^ 1)? {
            Answer::Differs => {}
            Answer::Solved => return Ok(place),
            Answer::Link => bail!("the byte at {place} is altered, and a link fails"),
        }
    }
    bail!("more bytes than {MOST}")
}

// The byte that this end sends at this place: the least byte that can be put there without a
// difference. After the last place any byte can.
fn byte_at<R: Host>(rt: &R, from_first: bool, place: u64) -> Result<u8> {
    for byte in 0..=u8::MAX {
        match answer_with_byte(rt, from_first, place, byte)? {
            Answer::Differs => {}
            Answer::Solved => return Ok(byte),
            Answer::Link => bail!("{byte} goes out at {place}, and a link fails"),
        }
    }
    bail!("every byte at {place} differs")
}

// The answer if this poll of this end fails.
fn answer_with_failing<R: Host>(rt: &R, first_end: bool, poll: u64) -> Result<Answer> {
    answer_over(rt, &mut failing_at(rt.alloc(), first_end, poll)?)
}

// The answer if this byte replaces the one at this place of what this end sends.
fn answer_with_byte<R: Host>(rt: &R, from_first: bool, place: u64, byte: u8) -> Result<Answer> {
    answer_over(rt, &mut altering_at(rt.alloc(), from_first, place, byte)?)
}
