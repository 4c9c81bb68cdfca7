//! Lists whose items may be missing.

ghost use Rattle.std.specs.Prelude.{◌≡◌, ◌<◌, [], ◌∷◌, ◌++◌, length, get_or, if◌then◌else◌, is_ok, MatchOption, OnOk, OnErr, Some, None};

use dcop_base::NoMemory;
use std::alloc::Global;
use std::marker::Model;

/// A list whose items may be missing, which contracts see as a list of options. Missing items
/// before the first present one take no memory.
#[derive(Debug, Drop)]
pub struct OptionList<T> {
    len: usize,
    room: usize,
    kept: Vec<Option<T>>,
}

impl<T> Model for OptionList<T> {
    ghost use Rattle.std.specs.Prelude.{List, Option, None, ◌-◌, ◌≤◌, ◌++◌, length, replicate};

    ghost Value = { List (Option T) };

    ghost view = { λ l. replicate (l.len - length l.kept.items) None ++ l.kept.items };

    ghost invariant = { λ l. length l.kept.items ≤ l.len };
}

impl<T> OptionList<T> {
    /// The empty list. When it first allocates, it reserves room for `room` items.
    pub fn new(alloc: Global, room: usize) -> Self
        ensures { result ≡ [] }
    {
        OptionList {
            len: 0,
            room,
            kept: Vec::new(alloc),
        }
    }

    /// The number of items, including the missing ones.
    pub fn len(&self) -> usize
        ensures { result ≡ length self.now }
    {
        self.len
    }

    /// The item at a place; `None` if it is missing or the place is beyond the last one.
    pub fn get(&self, place: usize) -> Option<&T>
        ensures { MatchOption result (get_or self.now place None ≡ None)
            (λ item. get_or self.now place None ≡ Some item.now) }
    {
        let missing = self.len - self.kept.len();
        if place < missing {
            return None;
        }
        match self.kept.get(place - missing) {
            Some(item) => item.as_ref(),
            None => None,
        }
    }
}

impl<T: Drop> OptionList<T> {
    /// Adds an item, which may be missing, at the end.
    ///
    /// # Errors
    ///
    /// [`NoMemory`] if memory runs out. The list is then as it was.
    pub fn push(&mut self, item: Option<T>) -> Result<(), NoMemory>
        requires { length self.old < usize.MAX }
        ensures ok { OnOk result (self.new ≡ self.old ++ item ∷ []) }
        ensures err { OnErr result (self.new ≡ self.old) }
    {
        if item.is_some() || !self.kept.is_empty() {
            let room = self.room;
            keep(&mut self.kept, room, item)?;
        }
        self.len += 1;
        Ok(())
    }
}

/// Adds an item to those that are kept. The first one reserves room for `room` items.
fn keep<T: Drop>(kept: &mut Vec<Option<T>>, room: usize, item: Option<T>) -> Result<(), NoMemory>
    ensures { kept.new.items ≡ (if is_ok result then kept.old.items ++ item ∷ [] else kept.old.items) }
{
    if kept.is_empty() {
        kept.reserve_exact(room)?;
    }
    kept.push(item)?;
    Ok(())
}
