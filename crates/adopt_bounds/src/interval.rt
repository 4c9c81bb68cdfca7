//! A lower bound and an upper bound.

ghost use Rattle.std.specs.Prelude.{◌≡◌, max, true, false, MatchOption};
ghost use Rattle.adopt_context.specs.Allot.{lower_to};
ghost use Rattle.adopt_context.specs.Merge.{is_at_most, lesser};

/// A lower bound and an upper bound, which is `None` as long as there is none.
#[derive(Clone, Copy, Debug)]
pub(crate) struct Interval {
    pub lower: u64,
    pub upper: Option<u64>,
}

impl Interval {
    /// The larger of the lower bounds and the smaller of the upper ones; `None` exactly if these
    /// cross.
    pub(crate) fn merged(self, other: Interval) -> Option<Interval>
        ensures { MatchOption result
            (is_at_most (max self.lower other.lower) (lesser self.upper other.upper) ≡ false)
            (λ merged. (is_at_most (max self.lower other.lower) (lesser self.upper other.upper) ≡ true)
            × (merged ≡ record {
              lower = max self.lower other.lower;
              upper = lesser self.upper other.upper;
            })) }
    {
        let lower = self.lower.max(other.lower);
        let upper = lesser(self.upper, other.upper);
        if is_at_most(lower, upper) {
            Some(Interval { lower, upper })
        } else {
            None
        }
    }

    /// The amount raised to the lower bound and then lowered to the upper one.
    pub(crate) fn nearest(self, amount: u64) -> u64
        ensures { result ≡ lower_to (max amount self.lower) self.upper }
    {
        lower_to(amount.max(self.lower), self.upper)
    }
}

/// The lesser of two upper bounds; `None` counts as the largest.
fn lesser(one: Option<u64>, other: Option<u64>) -> Option<u64>
    ensures { result ≡ lesser one other }
{
    match one {
        Some(bound) => Some(lower_to(bound, other)),
        None => other,
    }
}

/// Whether a lower bound does not exceed an upper one.
fn is_at_most(lower: u64, upper: Option<u64>) -> bool
    ensures { result ≡ is_at_most lower upper }
{
    match upper {
        Some(bound) => lower <= bound,
        None => true,
    }
}

/// The amount, or the bound if the amount is above it.
pub(crate) fn lower_to(amount: u64, bound: Option<u64>) -> u64
    ensures { result ≡ lower_to amount bound }
{
    match bound {
        Some(bound) => amount.min(bound),
        None => amount,
    }
}
