//! The bytes that one node sends to another in an exchange.

ghost use Rattle.std.specs.Prelude.{◌≡◌, ◌++◌, IfOk, OnOk};
ghost use Rattle.std.specs.List.{All, flat_map};
ghost use Rattle.wire_frames.specs.Frame.{framed};
ghost use Rattle.node_exchange.specs.Payloads.{payload_code};
ghost use Rattle.node_exchange.specs.Letters.{letter, IsLetter};
ghost use Rattle.node_exchange.specs.Passings.{letters_on, letters_of, frames_on, frames_of};

use crate::passing::LinkPassing;
use crate::payload::write_payload;
use dcop_base::{Bytes, NoMemory, VarId};
use protocol_steps::Envelope;
use std::alloc::Global;
use wire_frames::frame;

/// The frames of all that was drained of the links from one node to another, link by link, and on
/// each link oldest first.
///
/// # Errors
///
/// [`NoMemory`] if memory runs out.
pub fn write_letters(
    alloc: Global,
    passings: &[LinkPassing],
    from_node: u32,
    to_node: u32,
) -> Result<Bytes, NoMemory>
    ensures frames { IfOk result (λ bytes. bytes ≡ frames_of from_node to_node passings.now) }
    ensures letters { OnOk result (All IsLetter (letters_of from_node to_node passings.now)) }
{
    let mut bytes = Vec::new(alloc);
    for passing in passings {
        write_link(alloc, &mut bytes, passing, from_node, to_node)?;
    }
    Ok(Bytes::from_vec(bytes))
}

/// Adds the frames of what was drained of a link, if it leads from the one node to the other.
fn write_link(
    alloc: Global,
    bytes: &mut Vec<u8>,
    passing: &LinkPassing,
    from_node: u32,
    to_node: u32,
) -> Result<(), NoMemory>
    ensures frames { OnOk result (bytes.new.items ≡ bytes.old.items ++ frames_on from_node to_node passing.now) }
    ensures letters { OnOk result (All IsLetter (letters_on from_node to_node passing.now)) }
{
    if !passing.leads(from_node, to_node) {
        return Ok(());
    }
    write_all(
        alloc,
        bytes,
        passing.from(),
        passing.to(),
        passing.drained(),
    )?;
    Ok(())
}

/// Adds the frames of envelopes from one agent to another.
fn write_all(
    alloc: Global,
    bytes: &mut Vec<u8>,
    from: VarId,
    to: VarId,
    drained: &[Envelope],
) -> Result<(), NoMemory>
    ensures frames { OnOk result (bytes.new.items ≡ bytes.old.items ++ flat_map (λ e. framed (payload_code from to e)) drained.now) }
    ensures good { OnOk result (All (λ e. IsLetter (letter from to e)) drained.now) }
{
    for envelope in drained {
        write_one(alloc, bytes, from, to, envelope)?;
    }
    Ok(())
}

/// Adds the frame of an envelope.
fn write_one(
    alloc: Global,
    bytes: &mut Vec<u8>,
    from: VarId,
    to: VarId,
    envelope: &Envelope,
) -> Result<(), NoMemory>
    ensures frame { OnOk result (bytes.new.items ≡ bytes.old.items ++ framed (payload_code from to envelope.now)) }
    ensures good { OnOk result (IsLetter (letter from to envelope.now)) }
{
    let payload = write_payload(alloc, from, to, envelope)?;
    let framed = frame(alloc, payload.as_slice())?;
    bytes.extend_from_slice(framed.as_slice())?;
    Ok(())
}
