//! Where a list holds its items.

ghost use Rattle.std.specs.Prelude.{◌≡◌, ◌≤◌, length, IfOk, OnOk};
ghost use Rattle.short_lists.specs.Items.{items_in, HasRoom};

use arrayvec::ArrayVec;
use std::alloc::{AllocError, Global};
use std::default::MadeWith;
use std::sync::Arc;

/// The most items that a list holds in itself.
pub(crate) const FEW: usize = 4;

/// Where a list holds its items: in itself, in memory of its own, or in memory that it shares with
/// its clones.
#[derive(Debug, Drop)]
pub(crate) enum Items<T> {
    Few(ArrayVec<T, FEW, Global>),
    Own(Vec<T>),
    Shared(Arc<Vec<T>, Global>),
}

/// At most [`FEW`] items, copied for a list that holds them in itself.
pub(crate) fn few_of<T: MadeWith<Global> + Copy>(
    alloc: Global,
    items: &[T],
) -> ArrayVec<T, FEW, Global>
    requires { length items.now ≤ FEW }
    ensures { result.items ≡ items.now }
{
    let mut few = ArrayVec::new_in(alloc);
    // The items fit, so none is refused.
    let _ = few.try_extend_from_slice(items);
    few
}

/// The same items in memory of their own, with room for `room` more.
pub(crate) fn own_of<T: Copy>(alloc: Global, items: &[T], room: usize) -> Result<Vec<T>, AllocError>
    ensures { IfOk result (λ own. own.items ≡ items.now) }
{
    let mut own = Vec::with_capacity(alloc, items.len().saturating_add(room))?;
    own.extend_from_slice(items)?;
    Ok(own)
}

/// Moves the items into memory of their own, with room for more, if they are shared or if the list
/// holds [`FEW`] of them in itself.
pub(crate) fn make_room<T: MadeWith<Global> + Copy>(items: &mut Items<T>) -> Result<(), AllocError>
    ensures same { items_in items.new ≡ items_in items.old }
    ensures room { OnOk result (HasRoom FEW items.new) }
{
    let own = match &*items {
        Items::Few(few) => {
            if few.len() < FEW {
                return Ok(());
            }
            own_of(*few.allocator(), few.as_slice(), FEW)?
        }
        Items::Own(_) => return Ok(()),
        Items::Shared(shared) => own_of(*shared.allocator(), shared.as_slice(), FEW)?,
    };
    *items = Items::Own(own);
    Ok(())
}
