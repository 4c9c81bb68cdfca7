//! Lists of plain values that contracts see as lists.

ghost use Rattle.std.specs.Prelude.{◌≡◌, List};
ghost use Rattle.std.specs.Cmp.Lexicographic.{pointwise, lists_per, lists_equiv};
ghost use Rattle.std.specs.Hash as fed;
ghost use Rattle.std.specs.Hash.{items_Alike};

use crate::number::{Val, VarId};
use crate::table::Table;
use short_lists::ShortList;
use std::hash::{Hash, Hasher};
use std::marker::Model;

/// A list over a `Vec`, which contracts see as the list of its items.
#[derive(Clone, Debug, Drop)]
pub struct Sequence<T> {
    items: Vec<T>,
}

impl<T> Model for Sequence<T> {
    ghost Value = { List T };

    ghost view = { λ s. s.items.items };
}

impl<T> Sequence<T> {
    /// The list of these items. It keeps their memory and allocates nothing.
    pub fn from_vec(items: Vec<T>) -> Self
        ensures { result ≡ items.items }
    {
        Sequence { items }
    }

    /// The items, in order.
    pub fn as_slice(&self) -> &[T]
        ensures { result.now ≡ self.now }
    {
        self.items.as_slice()
    }

    /// The items, with their memory.
    pub fn into_vec(self) -> Vec<T>
        ensures { result.items ≡ self }
    {
        self.items
    }
}

impl<T: PartialEq> PartialEq for Sequence<T> {
    ghost eq = { λ a b. pointwise T.eq a b };

    ghost laws = { lists_per T.laws };

    fn eq(&self, other: &Self) -> bool {
        self.as_slice() == other.as_slice()
    }
}

impl<T: Eq> Eq for Sequence<T> {
    ghost laws = { lists_equiv T.Eq.laws };
}

impl<T: Hash> Hash for Sequence<T> {
    ghost hash_input = { λ a. fed.slice T.hash_input a };

    ghost respects_eq = { (items_Alike (record { fed = T.respects_eq })).fed };

    fn hash<H: Hasher>(&self, state: &mut H) {
        self.as_slice().hash(state);
    }
}

/// Variables.
pub type VarList = ShortList<VarId>;

/// Values.
pub type ValList = Sequence<Val>;

/// Domain sizes: the number of values of each variable.
pub type SizeList = ShortList<u16>;

/// Cost tables.
pub type TableList = Sequence<Table>;

/// Pairs of variables.
pub type PairList = Sequence<(VarId, VarId)>;

/// The bytes of a text.
pub type Bytes = Sequence<u8>;
