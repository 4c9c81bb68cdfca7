//! Cutting bytes into frames.

ghost use Rattle.std.specs.Prelude.{◌≡◌, ◌+◌, ◌≤◌, ◌++◌, ◌∷◌, [], length, take, drop, IfSome, OnOk, OnErr};
ghost use Rattle.std.specs.Int.{w32, to_be_bytes, from_be_bytes};
ghost use Rattle.wire_frames.specs.Frame.{length_field};
ghost use Rattle.wire_frames.specs.Cut.{IsFront, HoldsAll, Cuts, missing};

use dcop_base::{Bytes, NoMemory};
use std::alloc::Global;
use std::collections::VecDeque;

/// What is at the front of bytes.
enum Front<'a> {
    /// Less than a whole frame.
    Short,
    /// A length field above the limit.
    TooLong,
    /// A whole frame: its payload, and the bytes after the frame.
    Whole(&'a [u8], &'a [u8]),
}

/// Where the whole frames of some bytes end, and whether a length field above the limit follows
/// them.
#[derive(Clone, Copy, Debug)]
pub(crate) struct End {
    pub(crate) place: usize,
    pub(crate) is_too_long: bool,
}

/// The number that four bytes encode, big-endian.
fn number_of(field: [u8; 4]) -> u32
    ensures value { result ≡ from_be_bytes w32 field }
    ensures code { to_be_bytes w32 result ≡ field }
{
    u32::from_be_bytes(field)
}

/// The length field at the front of bytes; `None` if there are fewer than four bytes.
fn length_field(bytes: &[u8]) -> Option<u32>
    ensures value { result ≡ length_field bytes.now }
    ensures code { IfSome result (λ n. to_be_bytes w32 n ≡ take 4 bytes.now) }
{
    match bytes.split_first_chunk::<4>() {
        Some((field, _)) => Some(number_of(*field)),
        None => None,
    }
}

/// What is at the front of bytes.
fn front_of(limit: u32, bytes: &[u8]) -> Front<'_>
    ensures { IsFront limit bytes.now result }
{
    let Some(length) = length_field(bytes) else {
        return Front::Short;
    };
    if limit < length {
        return Front::TooLong;
    }
    let length = length as usize;
    if bytes.len() < 4 + length {
        return Front::Short;
    }
    let (payload, rest) = bytes[4..].split_at(length);
    Front::Whole(payload, rest)
}

/// Adds a copy of a payload to those that are held.
fn store(alloc: Global, ready: &mut VecDeque<Bytes>, payload: &[u8]) -> Result<(), NoMemory>
    ensures held { OnOk result (ready.new.items ≡ ready.old.items ++ payload.now ∷ []) }
    ensures kept { OnErr result (ready.new.items ≡ ready.old.items) }
{
    let payload = Bytes::from_vec(Vec::from_slice(alloc, payload)?);
    ready.push_back(payload)?;
    Ok(())
}

/// Adds the payloads of all whole frames at the front of bytes to those that are held.
fn store_all(
    alloc: Global,
    limit: u32,
    bytes: &[u8],
    ready: &mut VecDeque<Bytes>,
) -> Result<End, NoMemory>
    ensures { HoldsAll limit bytes.now ready.old.items result ready.new.items }
{
    let mut rest = bytes;
    loop {
        match front_of(limit, rest) {
            Front::Short => return Ok(end_at(bytes, rest, false)),
            Front::TooLong => return Ok(end_at(bytes, rest, true)),
            Front::Whole(payload, behind) => {
                store(alloc, ready, payload)?;
                rest = behind;
            }
        }
    }
}

/// The end of the whole frames, given the bytes that are left after them.
fn end_at(bytes: &[u8], rest: &[u8], is_too_long: bool) -> End
    requires { length rest.now ≤ length bytes.now }
    ensures place { result.place + length rest.now ≡ length bytes.now }
    ensures same { result.is_too_long ≡ is_too_long }
{
    End {
        place: bytes.len() - rest.len(),
        is_too_long,
    }
}

/// Adds a piece to the rest of a stream: the payloads of all frames that are now whole are held,
/// and the bytes after these frames are the new rest. If memory runs out, nothing changes.
pub(crate) fn cut(
    limit: u32,
    rest: &mut Vec<u8>,
    ready: &mut VecDeque<Bytes>,
    piece: &[u8],
) -> Result<End, NoMemory>
    ensures { Cuts limit rest.old.items ready.old.items piece.now result rest.new.items ready.new.items }
{
    let (left, held) = (rest.len(), ready.len());
    rest.reserve(piece.len().max(missing(rest.as_slice())))?;
    rest.extend_from_slice(piece)?;
    match store_all(*rest.allocator(), limit, rest.as_slice(), ready) {
        Ok(end) => {
            drop_front(rest, end.place);
            Ok(end)
        }
        Err(refused) => {
            rest.truncate(left);
            ready.truncate(held);
            Err(refused)
        }
    }
}

/// How many bytes the first frame still lacks; 0 if its length field is not there yet.
fn missing(bytes: &[u8]) -> usize
    ensures { result ≡ missing bytes.now }
{
    match length_field(bytes) {
        Some(length) => (4 + length as usize).saturating_sub(bytes.len()),
        None => 0,
    }
}

/// Drops the first `count` bytes.
fn drop_front(bytes: &mut Vec<u8>, count: usize)
    requires { count ≤ length bytes.old.items }
    ensures { bytes.new.items ≡ drop count bytes.old.items }
{
    bytes.drain(..count);
}
