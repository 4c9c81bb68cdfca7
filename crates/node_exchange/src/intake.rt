//! Adding to the links what one node has received from another in an exchange.

ghost use Rattle.std.specs.Prelude.{◌≡◌, ◌∷◌, [], ◌&&◌, true, None as none, position, IfOk, IfSome, List};
ghost use Rattle.std.specs.List.{All};
ghost use Rattle.worker_laws.specs.Cells.{EachAre};
ghost use Rattle.node_exchange.specs.declared.payload.Addressed.{Addressed};
ghost use Rattle.node_exchange.specs.Letters.{stream_of, IsLetter};
ghost use Rattle.node_exchange.specs.Passings.{letters_of, frames_of, SamePassing, HasReceived, LeadApart, IsOnLink, is_link, IsOtherByte};

use crate::bytes::{OtherByte, other_byte};
use crate::passing::LinkPassing;
use crate::payload::Addressed;
use crate::read::read_letters;
use dcop_base::{NoMemory, VarId};
use std::alloc::Global;

/// Reads letters, which are messages with their senders, from these bytes, and adds them to the
/// links from one node to another. No two links have the same sender and receiver.
///
/// If the bytes are those that were sent, the answer is `None`, and each link has all that was
/// drained of it. If the answer is a byte, the bytes are not whole frames of letters on these
/// links, and it is the first byte that differs from what was sent. Some letters may have been
/// added then.
///
/// # Errors
///
/// [`NoMemory`] if memory runs out. Some letters may have been added.
pub fn receive(
    alloc: Global,
    passings: &mut [LinkPassing],
    from_node: u32,
    to_node: u32,
    bytes: &[u8],
) -> Result<Option<OtherByte>, NoMemory>
    requires apart { LeadApart passings.old }
    ensures same { EachAre SamePassing passings.old passings.new }
    ensures differs { IfOk result (λ o. IfSome o (λ d. IsOtherByte passings.old from_node to_node bytes.now d.place d.sent d.taken)) }
    ensures honest { bytes.now ≡ frames_of from_node to_node passings.old → All IsLetter (letters_of from_node to_node passings.old)
        → IfOk result (λ o. (o ≡ none) × EachAre (HasReceived from_node to_node (letters_of from_node to_node passings.old)) passings.old passings.new) }
{
    if deliver_all(alloc, passings, from_node, to_node, bytes)? {
        return Ok(None);
    }
    let other = other_byte(alloc, passings, from_node, to_node, bytes)?;
    Ok(Some(other))
}

/// Adds the letters in these bytes to the links from one node to another. The answer is true if the
/// bytes are whole frames of letters on these links.
fn deliver_all(
    alloc: Global,
    passings: &mut [LinkPassing],
    from_node: u32,
    to_node: u32,
    bytes: &[u8],
) -> Result<bool, NoMemory>
    requires apart { LeadApart passings.old }
    ensures same { EachAre SamePassing passings.old passings.new }
    ensures only { IfOk result (λ whole. (ls : List Addressed) → All IsLetter ls → All (IsOnLink from_node to_node passings.old) ls → bytes.now ≡ stream_of ls
        → (whole ≡ true) × EachAre (HasReceived from_node to_node ls) passings.old passings.new) }
{
    let Some(letters) = read_letters(alloc, bytes)? else {
        return Ok(false);
    };
    let mut whole = true;
    for letter in letters {
        let there = deliver(passings, from_node, to_node, letter)?;
        whole = both(whole, there);
    }
    Ok(whole)
}

/// Whether both are true.
fn both(one: bool, other: bool) -> bool
    ensures { result ≡ (one && other) }
{
    one && other
}

/// Adds a letter to its link, if there is one from the one node to the other. The answer is whether
/// there is one.
fn deliver(
    passings: &mut [LinkPassing],
    from_node: u32,
    to_node: u32,
    letter: Addressed,
) -> Result<bool, NoMemory>
    requires apart { LeadApart passings.old }
    ensures same { EachAre SamePassing passings.old passings.new }
    ensures only { IfOk result (λ there. IsOnLink from_node to_node passings.old letter
        → (there ≡ true) × EachAre (HasReceived from_node to_node (letter ∷ [])) passings.old passings.new) }
{
    let Some(place) = place_of(passings, from_node, to_node, letter.from, letter.to) else {
        return Ok(false);
    };
    passings[place].receive(letter.envelope)?;
    Ok(true)
}

/// The position of the link with this sender and receiver, from the one node to the other.
fn place_of(
    passings: &[LinkPassing],
    from_node: u32,
    to_node: u32,
    from: VarId,
    to: VarId,
) -> Option<usize>
    ensures { result ≡ position (is_link from_node to_node from to) passings.now }
{
    passings
        .iter()
        .position(|passing| is_on(passing, from_node, to_node, from, to))
}

/// Whether a link has this sender and receiver, and leads from the one node to the other.
fn is_on(passing: &LinkPassing, from_node: u32, to_node: u32, from: VarId, to: VarId) -> bool
    ensures { result ≡ is_link from_node to_node from to passing.now }
{
    passing.leads(from_node, to_node) && passing.from() == from && passing.to() == to
}
