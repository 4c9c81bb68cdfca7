//! Decoding.

ghost use Rattle.message_code.specs.Decode.{IsFault, Decodes, Finds};
ghost use Rattle.message_code.specs.Form.{envelope, ended};
ghost use Rattle.message_code.specs.Reading.{Stopped, IsReadWhole};

use crate::fault::DecodeFault;
use crate::message::{amount_at, message_at};
use crate::number::u8_at;
use crate::stop::Stop;
use protocol_steps::Envelope;
use std::alloc::Global;

/// The envelope whose code these bytes are.
///
/// # Errors
///
/// - [`DecodeFault::Bad`] exactly when the bytes are the code of no envelope. It has the position
///   of the first field that is cut short or outside its range, or of the first byte that is left
///   over.
/// - [`DecodeFault::NoMemory`] if memory runs out.
pub fn decode(alloc: Global, bytes: &[u8]) -> Result<Envelope, DecodeFault>
    ensures decoded { Decodes bytes.now result }
    ensures only { Finds bytes.now result }
{
    match envelope_at(alloc, bytes) {
        Ok(envelope) => Ok(envelope),
        Err(stop) => Err(fault_of(bytes, stop)),
    }
}

/// The envelope whose code these bytes are.
fn envelope_at(alloc: Global, bytes: &[u8]) -> Result<Envelope, Stop>
    ensures { IsReadWhole bytes.now result }
{
    let (stamp, rest) = amount_at(bytes)?;
    let (tag, rest) = u8_at(rest, 1, 9)?;
    let (message, rest) = message_at(alloc, tag, rest)?;
    if !rest.is_empty() {
        return Err(Stop::Bad { left: rest.len() });
    }
    Ok(Envelope { stamp, message })
}

/// The fault of these bytes, given where reading them stopped.
fn fault_of(bytes: &[u8], stop: Stop) -> DecodeFault
    requires { Stopped (λ (_ : Unit {0}). envelope ended) bytes.now stop }
    ensures { IsFault bytes.now result }
{
    match stop {
        Stop::Bad { left } => DecodeFault::Bad {
            place: (bytes.len() - left) as u64,
        },
        Stop::NoMemory => DecodeFault::NoMemory,
    }
}
