//! What an agent takes and sends in an event.

ghost use Rattle.std.specs.Prelude.{◌≡◌, [], IfOk, OnOk};

use dcop_base::NoMemory;
use protocol_steps::{Letter, Parcel};
use std::alloc::Global;

/// What an agent took and what it sent in an event.
#[derive(Debug, Drop)]
pub struct Exchange {
    /// The messages that it took, in the order in which they were handed to it.
    pub took: Vec<Letter>,
    /// The messages that it sent, in order.
    pub sent: Vec<Parcel>,
}

impl Exchange {
    /// The record of an event in which nothing is taken and nothing is sent yet.
    pub fn new(alloc: Global) -> Exchange
        ensures took { result.took.items ≡ [] }
        ensures sent { result.sent.items ≡ [] }
    {
        Exchange {
            took: Vec::new(alloc),
            sent: Vec::new(alloc),
        }
    }
}

/// A copy of a letter.
fn letter_copy(letter: &Letter) -> Result<Letter, NoMemory>
    ensures { IfOk result (λ copy. copy ≡ letter.now) }
{
    let message = letter.message.clone()?;
    Ok(Letter {
        from: letter.from,
        message,
    })
}

/// A copy of a parcel.
fn parcel_copy(parcel: &Parcel) -> Result<Parcel, NoMemory>
    ensures { IfOk result (λ copy. copy ≡ parcel.now) }
{
    let message = parcel.message.clone()?;
    Ok(Parcel {
        to: parcel.to,
        message,
    })
}

/// Replaces the content of `copies` by copies of these letters, in order.
pub(crate) fn copy_letters(letters: &[Letter], copies: &mut Vec<Letter>) -> Result<(), NoMemory>
    ensures { OnOk result (copies.new.items ≡ letters.now) }
{
    copies.clear();
    for letter in letters {
        copies.push(letter_copy(letter)?)?;
    }
    Ok(())
}

/// Replaces the content of `copies` by copies of these parcels, in order.
pub(crate) fn copy_parcels(parcels: &[Parcel], copies: &mut Vec<Parcel>) -> Result<(), NoMemory>
    ensures { OnOk result (copies.new.items ≡ parcels.now) }
{
    copies.clear();
    for parcel in parcels {
        copies.push(parcel_copy(parcel)?)?;
    }
    Ok(())
}
