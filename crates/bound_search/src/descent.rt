//! The descent from variable to variable.

ghost use Rattle.std.specs.Prelude.{◌≡◌, ℕ, ◌+◌, ◌-◌, ◌/◌, ◌<◌, ◌≤◌, min, true, Some, None, length, drop, slice_index};
ghost use Rattle.std.specs.List.{sum};
ghost use Rattle.dcop_base.specs.Table.{AreWithin};
ghost use Rattle.dcop_base.specs.Values.{with_own};
ghost use Rattle.shared_costs.specs.Values.{AgreeBelow};
ghost use Rattle.bound_search.specs.Estimate.{estimate};
ghost use Rattle.bound_search.specs.Grounds.{AreGrounds};
ghost use Rattle.bound_search.specs.Descent.{HasDescended, IsOpened, IsRoom, IsStanding, far_of};
ghost use Rattle.bound_search.specs.Visits.{VisitsFrom};

use crate::progress::Progress;
use crate::room::room_of;
use crate::row::fill_row;
use crate::rules::Rules;
use bucket_bounds::Bucket;
use dcop_base::{Val, VarId};

/// Searches the assignments that begin with the values of the first `depth` variables. They cost at
/// least `least`, scaled. `found` has the values of the best assignment that was found.
pub(crate) fn descend(
    sizes: &[u16],
    buckets: &[Bucket],
    rules: Rules,
    depth: usize,
    least: u64,
    values: &mut [Val],
    rows: &mut [u64],
    found: &mut [Val],
    progress: &mut Progress,
)
    requires grounds { AreGrounds sizes.now rules.scale buckets.now }
    requires depth { depth ≤ length sizes.now }
    requires within { AreWithin sizes.now values.old }
    requires least { least ≡ estimate depth buckets.now (slice_index values.old) }
    requires room { depth ≡ length sizes.now → least < progress.old.room }
    requires few { progress.old.best ≡ None
        → progress.old.nodes + (length sizes.now - depth) ≤ u64.MAX }
    requires rows { sum (drop depth sizes.now) ≤ length rows.old }
    requires standing { IsStanding sizes.now buckets.now rules found.old progress.old }
    ensures within { AreWithin sizes.now values.new }
    ensures same { AgreeBelow depth (slice_index values.old) (slice_index values.new) }
    ensures standing { IsStanding sizes.now buckets.now rules found.new progress.new }
    ensures descended { HasDescended sizes.now buckets.now rules depth least
        (slice_index values.old) progress.old progress.new }
    ensures visits { VisitsFrom (drop depth sizes.now) buckets.now rules depth (slice_index values.old)
        (far_of progress.old) (far_of progress.new) }
{
    if depth == sizes.len() {
        found.copy_from_slice(values);
        take(progress, rules, least);
        return;
    }
    values[depth] = Val(0);
    let (row, rest) = rows.split_at_mut(usize::from(sizes[depth]));
    fill_estimates(row, sizes, buckets, rules, depth, least, values);
    'visits: loop {
        let (value, next) = least_of(row);
        if !opens(progress, rules.budget, next) {
            return;
        }
        row[value] = u64::MAX;
        values[depth] = Val(value as u16);
        descend(
            sizes,
            buckets,
            rules,
            depth + 1,
            next,
            values,
            rest,
            found,
            progress,
        );
    }
}

/// Fills the row of the variable at this depth: for each of its values the estimate at the next
/// depth. Among `values` the variable has the value 0.
fn fill_estimates(
    row: &mut [u64],
    sizes: &[u16],
    buckets: &[Bucket],
    rules: Rules,
    depth: usize,
    least: u64,
    values: &[Val],
)
    requires grounds { AreGrounds sizes.now rules.scale buckets.now }
    requires depth { depth < length sizes.now }
    requires within { AreWithin sizes.now values.now }
    requires zero { slice_index values.now depth ≡ 0 }
    requires least { least ≡ estimate depth buckets.now (slice_index values.now) }
    requires long { length row.old ≡ slice_index sizes.now depth }
    ensures { (d : ℕ) → d < length row.old → slice_index row.new d
        ≡ estimate (depth + 1) buckets.now (with_own depth d (slice_index values.now)) }
{
    fill_row(row, &buckets[depth], values, VarId(depth as u32), least);
}

/// Takes an assignment with this estimate as the best one.
fn take(progress: &mut Progress, rules: Rules, estimate: u64)
    requires { 1 ≤ rules.scale }
    ensures best { progress.new.best ≡ Some (estimate / rules.scale) }
    ensures found { progress.new.found ≡ true }
    ensures nodes { progress.new.nodes ≡ progress.old.nodes }
    ensures lower { progress.new.lower ≡ min progress.old.lower estimate }
    ensures spent { progress.new.spent ≡ progress.old.spent }
    ensures room { IsRoom rules progress.new.best progress.new.room }
{
    let best = estimate / rules.scale;
    progress.best = Some(best);
    progress.found = true;
    progress.room = room_of(rules, Some(best));
    progress.lower = progress.lower.min(estimate);
}

/// Whether the next value, which has this estimate, is visited. If so, it is counted as a node.
/// Else it is passed over, or left open because the budget was reached.
fn opens(progress: &mut Progress, budget: u64, least: u64) -> bool
    requires { progress.old.best ≡ None → progress.old.nodes < u64.MAX }
    ensures { IsOpened budget least progress.old progress.new result }
{
    if least >= progress.room {
        progress.lower = progress.lower.min(least);
        return false;
    }
    if progress.nodes >= budget && progress.best.is_some() {
        progress.spent = true;
        progress.lower = progress.lower.min(least);
        return false;
    }
    progress.nodes += 1;
    true
}

/// The place of the first least entry of a row, and that entry.
fn least_of(row: &[u64]) -> (usize, u64)
    requires { 1 ≤ length row.now }
    ensures place { result.0 < length row.now }
    ensures entry { result.1 ≡ slice_index row.now result.0 }
    ensures least { (k : ℕ) → k < length row.now → result.1 ≤ slice_index row.now k }
{
    let mut place = 0;
    let mut least = row[0];
    for (k, entry) in row.iter().enumerate() {
        if *entry < least {
            place = k;
            least = *entry;
        }
    }
    (place, least)
}
