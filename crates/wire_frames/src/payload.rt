//! The frame of a payload.

ghost use Rattle.std.specs.Prelude.{◌≡◌, ◌≤◌, length, IfOk};
ghost use Rattle.wire_frames.specs.Frame.{payload_limit, framed};

use dcop_base::{Bytes, NoMemory};
use std::alloc::Global;

/// The greatest length of a payload in bytes, 2^24.
pub const MAX_PAYLOAD: u32 = 16_777_216;

/// [`MAX_PAYLOAD`] equals `payload_limit` of the definitions.
pub fn payloads_agree()
    ensures { MAX_PAYLOAD ≡ payload_limit }
{}

/// The frame of a payload of at most [`MAX_PAYLOAD`] bytes: its length as a `u32`, big-endian, and
/// its bytes.
///
/// # Errors
///
/// [`NoMemory`] if memory runs out.
pub fn frame(alloc: Global, payload: &[u8]) -> Result<Bytes, NoMemory>
    requires { length payload.now ≤ payload_limit }
    ensures { IfOk result (λ bytes. bytes ≡ framed payload.now) }
{
    let mut bytes = Vec::with_capacity(alloc, 4 + payload.len())?;
    bytes.extend_from_slice(&(payload.len() as u32).to_be_bytes())?;
    bytes.extend_from_slice(payload)?;
    Ok(Bytes::from_vec(bytes))
}
