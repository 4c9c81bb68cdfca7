//! A message between two nodes, as the payload of a frame.

ghost use Rattle.std.specs.Prelude.{◌≡◌, ◌<◌, ◌≤◌, ◌++◌, ◌^◌, ℕ, length, Some, IfOk, OnOk, IfSome, MatchOption};
ghost use Rattle.std.specs.Int.{w32, to_be_bytes};
ghost use Rattle.protocol_steps.specs.declared.message.Message.{Message};
ghost use Rattle.wire_frames.specs.Frame.{payload_limit};
ghost use Rattle.message_code.specs.Decode.{IsEnvelope};
ghost use Rattle.node_exchange.specs.Payloads.{payload_code, IsFoundAs};
ghost use Rattle.node_exchange.specs.Letters.{letter, IsLetter};

use dcop_base::{Bytes, NoMemory, VarId};
use message_code::{DecodeFault, decode, encode};
use protocol_steps::Envelope;
use std::alloc::Global;

/// A letter: an envelope with its sender and its receiver.
#[derive(Drop)]
pub struct Addressed {
    /// The agent that sends.
    pub from: VarId,
    /// The agent that receives.
    pub to: VarId,
    /// What is sent.
    pub envelope: Envelope,
}

/// The payload of a letter: the sender and the receiver in four bytes each, big-endian, and then
/// the code of the envelope.
pub(crate) fn write_payload(
    alloc: Global,
    from: VarId,
    to: VarId,
    envelope: &Envelope,
) -> Result<Bytes, NoMemory>
    ensures code { IfOk result (λ bytes. bytes ≡ payload_code from to envelope.now) }
    ensures short { IfOk result (λ bytes. length bytes ≤ payload_limit) }
    ensures letter { OnOk result (IsLetter (letter from to envelope.now)) }
{
    let code = encode(alloc, envelope)?;
    let mut bytes = Vec::new(alloc);
    let (sender, receiver) = (from.0, to.0);
    bytes.extend_from_slice(&sender.to_be_bytes())?;
    bytes.extend_from_slice(&receiver.to_be_bytes())?;
    bytes.extend_from_slice(code.as_slice())?;
    Ok(Bytes::from_vec(bytes))
}

/// The letter whose payload these bytes are; `None` if they are the payload of none.
pub(crate) fn read_payload(alloc: Global, bytes: &[u8]) -> Result<Option<Addressed>, NoMemory>
    ensures found { IfOk result (λ o. IfSome o (λ a. bytes.now ≡ payload_code a.from a.to a.envelope)) }
    ensures only { IfOk result (λ o. (from to : ℕ) (e : ℕ × Message) → from < 2 ^ 32 → to < 2 ^ 32 → IsEnvelope e → bytes.now ≡ payload_code from to e → IsFoundAs o from to e) }
{
    let Some((from, rest)) = number_at(bytes) else {
        return Ok(None);
    };
    let Some((to, rest)) = number_at(rest) else {
        return Ok(None);
    };
    match decode(alloc, rest) {
        Ok(envelope) => Ok(Some(Addressed {
            from: VarId(from),
            to: VarId(to),
            envelope,
        })),
        Err(DecodeFault::Bad { .. }) => Ok(None),
        Err(DecodeFault::NoMemory) => Err(NoMemory),
    }
}

/// The number in the first four bytes, big-endian, and the bytes after it; `None` if there are
/// fewer than four bytes.
fn number_at(bytes: &[u8]) -> Option<(u32, &[u8])>
    ensures { MatchOption result (length bytes.now < 4) (λ r. bytes.now ≡ to_be_bytes w32 r.0 ++ r.1.now) }
{
    let (field, rest) = bytes.split_first_chunk::<4>()?;
    Some((number_of(*field), rest))
}

/// The number that four bytes encode, big-endian.
fn number_of(field: [u8; 4]) -> u32
    ensures { to_be_bytes w32 result ≡ field }
{
    u32::from_be_bytes(field)
}
