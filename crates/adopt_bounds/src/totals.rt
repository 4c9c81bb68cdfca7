//! The totals of a row of bounds.

ghost use Rattle.std.specs.Prelude.{◌≡◌, ◌+◌, ◌<◌, ◌≤◌, ◌^◌, replicate};
ghost use Rattle.adopt_context.specs.Bounds.{blank, cap, capped, plus_bound};
ghost use Rattle.adopt_context.specs.Context.{or_zero};

use crate::interval::Interval;
use dcop_base::CAP;

/// The sums of the bounds of a row.
#[derive(Clone, Copy, Debug)]
pub(crate) struct Totals {
    /// The sum of the lower bounds.
    pub lower: u128,
    /// The sum of the upper bounds that are there.
    pub upper: u128,
    /// The number of upper bounds that are none.
    pub missing: usize,
}

impl Totals {
    ghost use Rattle.adopt_bounds.specs.Totals.{missing_of, totals_of, upper_of};

    /// The totals of a row of `width` entries in which nothing is known.
    pub(crate) fn of_blank(width: usize) -> Totals
        ensures { result ≡ totals_of (replicate width blank) }
    {
        Totals {
            lower: 0,
            upper: 0,
            missing: width,
        }
    }

    /// The sum of the lower bounds and a cost, at most [`CAP`].
    pub(crate) fn lower_with(self, own: u64) -> u64
        requires { self.lower < 2 ^ 127 }
        ensures { result ≡ cap (own + self.lower) }
    {
        capped_sum(self.lower, own)
    }

    /// The sum of the upper bounds and a cost, at most [`CAP`]; `None` if the cost or one of the
    /// upper bounds is not there.
    pub(crate) fn upper_with(self, own: Option<u64>) -> Option<u64>
        requires { self.upper < 2 ^ 127 }
        ensures { result ≡ capped (plus_bound own (upper_of self)) }
    {
        if self.missing > 0 {
            return None;
        }
        match own {
            Some(own) => Some(capped_sum(self.upper, own)),
            None => None,
        }
    }

    /// Replaces the bounds of an entry of the row by others.
    pub(crate) fn exchange(&mut self, old: Interval, new: Interval)
        requires lower { old.lower ≤ self.old.lower }
        requires upper { or_zero old.upper ≤ self.old.upper }
        requires missing { missing_of old.upper ≤ self.old.missing }
        requires lower_fits { self.old.lower + new.lower ≤ u128.MAX }
        requires upper_fits { self.old.upper + or_zero new.upper ≤ u128.MAX }
        requires missing_fits { self.old.missing + missing_of new.upper ≤ usize.MAX }
        ensures lower { self.new.lower + old.lower ≡ self.old.lower + new.lower }
        ensures upper { self.new.upper + or_zero old.upper ≡ self.old.upper + or_zero new.upper }
        ensures missing { self.new.missing + missing_of old.upper ≡
            self.old.missing + missing_of new.upper }
    {
        self.lower = self.lower + u128::from(new.lower) - u128::from(old.lower);
        match old.upper {
            Some(bound) => self.upper -= u128::from(bound),
            None => self.missing -= 1,
        }
        match new.upper {
            Some(bound) => self.upper += u128::from(bound),
            None => self.missing += 1,
        }
    }
}

/// The sum of bounds and a cost, at most [`CAP`].
fn capped_sum(bounds: u128, own: u64) -> u64
    requires { bounds < 2 ^ 127 }
    ensures { result ≡ cap (own + bounds) }
{
    (u128::from(own) + bounds).min(u128::from(CAP)) as u64
}
