//! Variables, values and amounts: the numbers of a problem, each with a type of its own.

ghost use Rattle.std.specs.Prelude.{◌≡◌, ℕ, ◌+◌, ◌<◌, ◌≤◌, ◌↔◌, min, IsSome, IfSome};
ghost use Rattle.dcop_base.specs.Limits.{amount_limit};

use crate::limit::CAP;
use std::marker::Model;

/// A variable's number, counted from 0 in order of declaration. Agent `i` owns variable `i`.
#[derive(Clone, Copy, Debug, Default, PartialEq, Eq, PartialOrd, Ord, Hash)]
pub struct VarId(pub u32);

impl Model for VarId {
    ghost Value = { ℕ };

    ghost view = { λ v. v.0 };

    ghost inverse = { λ n. record { 0 = n } };
}

/// A value of a variable, counted from 0.
#[derive(Clone, Copy, Debug, PartialEq, Eq, PartialOrd, Ord, Hash)]
pub struct Val(pub u16);

impl Model for Val {
    ghost Value = { ℕ };

    ghost view = { λ v. v.0 };

    ghost inverse = { λ n. record { 0 = n } };
}

/// A cost, a bound, a threshold or a UTIL cell: a number that is at most [`CAP`].
#[derive(Clone, Copy, Debug, PartialEq, Eq, PartialOrd, Ord, Hash)]
pub struct Amount {
    value: u64,
}

impl Model for Amount {
    ghost Value = { ℕ };

    ghost view = { λ a. a.value };

    ghost invariant = { λ a. a.value ≤ amount_limit };

    ghost inverse = { λ n. record { value = n } };
}

impl Amount {
    /// The amount of this number; `None` exactly if the number is above [`CAP`].
    pub fn new(value: u64) -> Option<Amount>
        ensures within { IsSome result ↔ (value ≤ amount_limit) }
        ensures same { IfSome result (λ amount. amount ≡ value) }
    {
        if value <= CAP {
            Some(Amount { value })
        } else {
            None
        }
    }

    /// The number.
    pub fn get(self) -> u64
        ensures same { result ≡ self }
        ensures within { result ≤ amount_limit }
    {
        self.value
    }

    /// The sum, or [`CAP`] if the sum is above it.
    pub fn plus(self, other: Amount) -> Amount
        ensures { result ≡ min (self + other) amount_limit }
    {
        Amount {
            value: (self.value + other.value).min(CAP),
        }
    }
}
