//! Allotting a goal to the children for one own value.

ghost use Rattle.std.specs.Prelude.{◌≡◌, ℕ, ◌+◌, ◌*◌, ◌≤◌, List, Option, length, take, drop};
ghost use Rattle.std.specs.List.{All, sum_by};
ghost use Rattle.dcop_base.specs.Limits.{amount_limit};
ghost use Rattle.adopt_context.specs.Allot.{allot, cut, raise};
ghost use Rattle.adopt_context.specs.Context.{Context};
ghost use Rattle.adopt_bounds.specs.Rows.{entries_of};

use crate::interval::lower_to;

/// Allots the goal to the row of `width` entries that starts at `start` in these lists.
pub(crate) fn allot_at(
    share: &mut [u64],
    lower: &[u64],
    upper: &[Option<u64>],
    start: usize,
    width: usize,
    goal: u64,
)
    requires lower { length lower.now ≡ length share.old }
    requires upper { length upper.now ≡ length share.old }
    requires inside { start + width ≤ length share.old }
    requires goal { goal ≤ amount_limit }
    requires share_within { All (λ s. s ≤ amount_limit) share.old }
    requires lower_within { All (λ l. l ≤ amount_limit) lower.now }
    ensures before { take start share.new ≡ take start share.old }
    ensures behind { drop (start + width) share.new ≡ drop (start + width) share.old }
    ensures row { (contexts : List Context) → length contexts ≡ width
        → entries_of (take width (drop start lower.now)) (take width (drop start upper.now))
        (take width (drop start share.new)) contexts
        ≡ allot goal (entries_of (take width (drop start lower.now)) (take width (drop start upper.now))
        (take width (drop start share.old)) contexts) }
    ensures share_within { All (λ s. s ≤ amount_limit) share.new }
{
    let (_, share) = share.split_at_mut(start);
    let (row, _) = share.split_at_mut(width);
    let (_, lower) = lower.split_at(start);
    let (row_lower, _) = lower.split_at(width);
    let (_, upper) = upper.split_at(start);
    let (row_upper, _) = upper.split_at(width);
    allot_row(row, row_lower, row_upper, goal);
}

/// Raises or lowers the shares of a row in order, each between its bounds, until they add up to the
/// goal or no share can move further.
fn allot_row(share: &mut [u64], lower: &[u64], upper: &[Option<u64>], goal: u64)
    requires lower { length lower.now ≡ length share.old }
    requires upper { length upper.now ≡ length share.old }
    requires goal { goal ≤ amount_limit }
    requires share_within { All (λ s. s ≤ amount_limit) share.old }
    requires lower_within { All (λ l. l ≤ amount_limit) lower.now }
    ensures entries { (contexts : List Context) → length contexts ≡ length share.old
        → entries_of lower.now upper.now share.new contexts
        ≡ allot goal (entries_of lower.now upper.now share.old contexts) }
    ensures share_within { All (λ s. s ≤ amount_limit) share.new }
{
    let sum = sum_of(share);
    let goal = u128::from(goal);
    if sum < goal {
        raise(share, upper, (goal - sum) as u64);
    } else if goal < sum {
        cut(share, lower, sum - goal);
    }
}

/// The sum of the shares.
fn sum_of(share: &[u64]) -> u128
    requires { All (λ s. s ≤ amount_limit) share.now }
    ensures { result ≡ sum_by (λ s. s) share.now }
{
    let mut sum: u128 = 0;
    for amount in share {
        sum += u128::from(*amount);
    }
    sum
}

/// Raises the shares of a row in order by what is lacking, each to no more than its upper bound.
fn raise(share: &mut [u64], upper: &[Option<u64>], mut lack: u64)
    requires upper { length upper.now ≡ length share.old }
    requires fits { sum_by (λ s. s) share.old + lack ≤ amount_limit }
    ensures entries { (lower : List ℕ) (contexts : List Context) → length lower ≡ length share.old
        → length contexts ≡ length share.old → entries_of lower upper.now share.new contexts
        ≡ raise lack (entries_of lower upper.now share.old contexts) }
    ensures share_within { All (λ s. s ≤ amount_limit) share.new }
{
    for (k, amount) in share.iter_mut().enumerate() {
        let most = *amount + lack;
        let raised = lower_to(most, upper[k]);
        lack = most - raised;
        *amount = raised;
    }
}

/// Lowers the shares of a row in order by the excess, each to no less than its lower bound.
fn cut(share: &mut [u64], lower: &[u64], mut excess: u128)
    requires lower { length lower.now ≡ length share.old }
    requires fits { excess ≤ amount_limit * length share.old }
    requires share_within { All (λ s. s ≤ amount_limit) share.old }
    requires lower_within { All (λ l. l ≤ amount_limit) lower.now }
    ensures entries { (upper : List (Option ℕ)) (contexts : List Context)
        → length upper ≡ length share.old → length contexts ≡ length share.old
        → entries_of lower.now upper share.new contexts
        ≡ cut excess (entries_of lower.now upper share.old contexts) }
    ensures share_within { All (λ s. s ≤ amount_limit) share.new }
{
    for (k, amount) in share.iter_mut().enumerate() {
        let least = u128::from(*amount).saturating_sub(excess) as u64;
        let lowered = least.max(lower[k]);
        excess = excess + u128::from(lowered) - u128::from(*amount);
        *amount = lowered;
    }
}
