//! The list.

ghost use Rattle.std.specs.Prelude.{◌≡◌, ◌≤◌, ◌++◌, [], ◌∷◌, length, IfOk, OnOk, OnErr};
ghost use Rattle.std.specs.List.{insert};
ghost use Rattle.std.specs.Cmp.Lexicographic.{pointwise, lists_per, lists_equiv};
ghost use Rattle.std.specs.Hash as fed;
ghost use Rattle.std.specs.Hash.{items_Alike};

use crate::items::{FEW, Items, few_of, make_room, own_of};
use arrayvec::ArrayVec;
use std::alloc::{AllocError, Global};
use std::default::MadeWith;
use std::hash::{Hash, Hasher};
use std::marker::Model;
use std::sync::Arc;

/// A list of plain values, which contracts see as the list of its items. It holds up to four items
/// in itself. More items are in allocated memory, which is the list's own or shared with its
/// clones.
#[derive(Debug, Drop)]
pub struct ShortList<T> {
    items: Items<T>,
}

impl<T> Model for ShortList<T> {
    ghost use Rattle.std.specs.Prelude.{List};
    ghost use Rattle.short_lists.specs.Items.{items_in};

    ghost Value = { List T };

    ghost view = { λ l. items_in l.items };
}

impl<T> ShortList<T> {
    /// The items, in order.
    pub fn as_slice(&self) -> &[T]
        ensures { result.now ≡ self.now }
    {
        match &self.items {
            Items::Few(items) => items.as_slice(),
            Items::Own(items) => items.as_slice(),
            Items::Shared(items) => items.as_slice(),
        }
    }
}

impl<T: MadeWith<Global> + Copy> ShortList<T> {
    /// The empty list. Allocates nothing.
    pub fn new(alloc: Global) -> Self
        ensures { result ≡ [] }
    {
        ShortList {
            items: Items::Few(ArrayVec::new_in(alloc)),
        }
    }

    /// The list of these items, which no other list shares. Allocates nothing: it keeps the memory
    /// of the items, or frees it if the list can hold them in itself.
    pub fn from_vec(items: Vec<T>) -> Self
        ensures { result ≡ items.items }
    {
        if items.len() <= FEW {
            let few = few_of(*items.allocator(), items.as_slice());
            return ShortList {
                items: Items::Few(few),
            };
        }
        ShortList {
            items: Items::Own(items),
        }
    }

    /// The list of these items, whose memory its clones share.
    ///
    /// # Errors
    ///
    /// [`AllocError`] if memory runs out. The items are dropped in that case.
    pub fn shared(alloc: Global, items: Vec<T>) -> Result<Self, AllocError>
        ensures { IfOk result (λ list. list ≡ items.items) }
    {
        if items.len() <= FEW {
            return Ok(ShortList::from_vec(items));
        }
        Ok(ShortList {
            items: Items::Shared(Arc::new(alloc, items)?),
        })
    }

    /// A list of the same items, copied.
    ///
    /// # Errors
    ///
    /// [`AllocError`] if memory runs out.
    pub fn from_slice(alloc: Global, items: &[T]) -> Result<Self, AllocError>
        ensures { IfOk result (λ list. list ≡ items.now) }
    {
        if items.len() <= FEW {
            return Ok(ShortList {
                items: Items::Few(few_of(alloc, items)),
            });
        }
        Ok(ShortList {
            items: Items::Own(own_of(alloc, items, 0)?),
        })
    }

    /// Adds an item at the end.
    ///
    /// # Errors
    ///
    /// [`AllocError`] if memory runs out. The list is then as it was.
    pub fn push(&mut self, item: T) -> Result<(), AllocError>
        ensures ok { OnOk result (self.new ≡ self.old ++ item ∷ []) }
        ensures err { OnErr result (self.new ≡ self.old) }
    {
        make_room(&mut self.items)?;
        match &mut self.items {
            Items::Few(items) => items.push(item),
            Items::Own(items) => items.push(item)?,
            // Not reached: what is shared has no room.
            Items::Shared(_) => {}
        }
        Ok(())
    }

    /// Inserts an item at `place`. The items from there on move up by one place.
    ///
    /// # Errors
    ///
    /// [`AllocError`] if memory runs out. The list is then as it was.
    pub fn insert(&mut self, place: usize, item: T) -> Result<(), AllocError>
        requires { place ≤ length self.old }
        ensures ok { OnOk result (self.new ≡ insert self.old place item) }
        ensures err { OnErr result (self.new ≡ self.old) }
    {
        make_room(&mut self.items)?;
        match &mut self.items {
            Items::Few(items) => items.insert(place, item),
            Items::Own(items) => items.insert(place, item)?,
            // Not reached: what is shared has no room.
            Items::Shared(_) => {}
        }
        Ok(())
    }
}

impl<T: MadeWith<Global> + Copy> Clone for ShortList<T> {
    ghost is_clone = { λ list copy. copy ≡ list };

    /// A list of the same items. If their memory is shared, the clone shares it too.
    fn clone(&self) -> Result<Self, AllocError> {
        let items = match &self.items {
            Items::Few(items) => Items::Few(few_of(*items.allocator(), items.as_slice())),
            Items::Own(items) => Items::Own(own_of(*items.allocator(), items.as_slice(), 0)?),
            Items::Shared(items) => Items::Shared(Arc::try_clone(items)?),
        };
        Ok(ShortList { items })
    }
}

impl<T: PartialEq> PartialEq for ShortList<T> {
    ghost eq = { λ a b. pointwise T.eq a b };

    ghost laws = { lists_per T.laws };

    fn eq(&self, other: &Self) -> bool {
        self.as_slice() == other.as_slice()
    }
}

impl<T: Eq> Eq for ShortList<T> {
    ghost laws = { lists_equiv T.Eq.laws };
}

impl<T: Hash> Hash for ShortList<T> {
    ghost hash_input = { λ a. fed.slice T.hash_input a };

    ghost respects_eq = { (items_Alike (record { fed = T.respects_eq })).fed };

    fn hash<H: Hasher>(&self, state: &mut H) {
        self.as_slice().hash(state);
    }
}
