//! The first byte that a node received and that differs from what was sent.

ghost use Rattle.std.specs.Prelude.{◌≡◌, ◌↔◌, true, slice_get, IfOk, MatchOption};
ghost use Rattle.node_exchange.specs.Passings.{AreNoLetters, IsOtherByte};
ghost use Rattle.node_exchange.specs.FirstByte.{IsFirstOther};

use crate::passing::LinkPassing;
use crate::write::write_letters;
use dcop_base::NoMemory;
use std::alloc::Global;

/// The first position at which the bytes that a node received differ from those that were sent to
/// it.
#[derive(Clone, Copy, Debug, PartialEq, Eq)]
pub struct OtherByte {
    /// The position in the bytes of the exchange from the one node to the other, from 0.
    pub place: usize,
    /// The byte that was sent; `None` if the bytes that were sent are over.
    pub sent: Option<u8>,
    /// The byte that was received; `None` if the bytes that were received are over.
    pub taken: Option<u8>,
}

/// The first byte that differs, given bytes that are not whole frames of letters on these links. It
/// writes once more what was sent, which takes memory.
pub(crate) fn other_byte(
    alloc: Global,
    passings: &[LinkPassing],
    from_node: u32,
    to_node: u32,
    came: &[u8],
) -> Result<OtherByte, NoMemory>
    requires strange { AreNoLetters passings.now from_node to_node came.now }
    ensures { IfOk result (λ d. IsOtherByte passings.now from_node to_node came.now d.place d.sent d.taken) }
{
    let went = write_letters(alloc, passings, from_node, to_node)?;
    let Some(place) = first_other(went.as_slice(), came) else {
        unreachable!()
    };
    Ok(OtherByte {
        place,
        sent: byte_at(went.as_slice(), place),
        taken: byte_at(came, place),
    })
}

/// The first position at which two lists of bytes differ; one of them may end there.
fn first_other(went: &[u8], came: &[u8]) -> Option<usize>
    ensures { MatchOption result (came.now ≡ went.now) (IsFirstOther went.now came.now) }
{
    let most = went.len().max(came.len());
    for place in 0..most {
        if !are_same_at(went, came, place) {
            return Some(place);
        }
    }
    None
}

/// Whether two lists of bytes have the same byte at a position, or neither has one.
fn are_same_at(went: &[u8], came: &[u8], place: usize) -> bool
    ensures { (result ≡ true) ↔ (slice_get came.now place ≡ slice_get went.now place) }
{
    match came.get(place) {
        Some(taken) => match went.get(place) {
            Some(sent) => *taken == *sent,
            None => false,
        },
        None => went.len() <= place,
    }
}

/// The byte at a position, if there is one.
fn byte_at(bytes: &[u8], place: usize) -> Option<u8>
    ensures { result ≡ slice_get bytes.now place }
{
    bytes.get(place).copied()
}
