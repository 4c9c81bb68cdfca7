//! The bytes of one UTIL message, as they go between two nodes.

use dcop_base::VarId;
use message_code::{decode, encode};
use protocol_steps::Message;
use std::alloc::Global;
use std::process::Abort;
use std::test::Fail;

/// Stamp 0, UTIL over variable 0, with cells 3 and 3.
const UTIL: [u8; 37] = [
    0, 0, 0, 0, 0, 0, 0, 0, 3, 0, 0, 0, 1, 0, 0, 0, 0, 0, 0, 0, 2, 0, 0, 0, 0, 0, 0, 0, 3, 0, 0, 0,
    0, 0, 0, 0, 3,
];

// Whether a message is a UTIL over this scope with these cells.
fn is_util(message: &Message, over: &[VarId], costs: &[u64]) -> bool {
    let Message::Util { scope, cells } = message else {
        return false;
    };
    scope.as_slice() == over && cells.as_slice() == costs
}

// Checks that these bytes are such a message, and that it is written as the same bytes.
fn see_util(
    rt: &impl Abort,
    alloc: Global,
    bytes: &[u8],
    over: &[VarId],
    costs: &[u64],
) -> Result<(), Fail> {
    let envelope = decode(alloc, bytes)?;
    assert!(rt; is_util(&envelope.message, over, costs));
    let again = encode(alloc, &envelope)?;
    assert!(rt; again.as_slice() == bytes);
    Ok(())
}

#[test]
fn a_message_is_read_and_written_again(rt: HostRuntime) -> Result<(), Fail> {
    see_util(&rt, rt.alloc(), &UTIL, &[VarId(0)], &[3, 3])
}
