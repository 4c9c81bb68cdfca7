//! Reading the bytes that one node has received from another in an exchange.

ghost use Rattle.std.specs.Prelude.{◌≡◌, List, map, IfOk, MatchOption};
ghost use Rattle.std.specs.List.{All};
ghost use Rattle.node_exchange.specs.declared.payload.Addressed.{Addressed};
ghost use Rattle.node_exchange.specs.Letters.{letter_code, stream_of, IsLetter};

use crate::payload::{Addressed, read_payload};
use dcop_base::NoMemory;
use std::alloc::Global;
use wire_frames::{FrameFault, FrameReader};

/// The letters whose frames these bytes are. `None` only if the bytes are not whole frames of
/// letters.
pub(crate) fn read_letters(alloc: Global, bytes: &[u8]) -> Result<Option<Vec<Addressed>>, NoMemory>
    ensures { IfOk result (λ o. (ls : List Addressed) → All IsLetter ls → bytes.now ≡ stream_of ls → MatchOption o ⊥ (λ v. v.items ≡ ls)) }
{
    let mut reader = FrameReader::new(alloc);
    match reader.feed(bytes) {
        Ok(()) => {}
        Err(FrameFault::TooLong { .. }) => return Ok(None),
        Err(FrameFault::NoMemory) => return Err(NoMemory),
    }
    if reader.rest() > 0 {
        return Ok(None);
    }
    open_all(alloc, &mut reader)
}

/// The letters whose payloads a reader holds. `None` only if one of them is not the payload of a
/// letter.
fn open_all(alloc: Global, reader: &mut FrameReader) -> Result<Option<Vec<Addressed>>, NoMemory>
    ensures { IfOk result (λ o. (ls : List Addressed) → All IsLetter ls → reader.old.ready ≡ map letter_code ls → MatchOption o ⊥ (λ v. v.items ≡ ls)) }
{
    let mut letters = Vec::new(alloc);
    while let Some(payload) = reader.next() {
        let Some(letter) = read_payload(alloc, payload.as_slice())? else {
            return Ok(None);
        };
        letters.push(letter)?;
    }
    Ok(Some(letters))
}
