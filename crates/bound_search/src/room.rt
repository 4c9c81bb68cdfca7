//! The room for better estimates.

ghost use Rattle.std.specs.Prelude.{◌≤◌, Some};
ghost use Rattle.bound_search.specs.Descent.{IsRoom};

use crate::rules::Rules;

/// The number below which an estimate is not passed over: with the error added, it is then better
/// than the best known cost.
pub(crate) fn room_of(rules: Rules, best: Option<u64>) -> u64
    requires { 1 ≤ rules.scale }
    ensures { IsRoom rules best result }
{
    match best {
        None => u64::MAX,
        Some(best) => room_below(rules, best),
    }
}

/// The room when this is the best known cost.
fn room_below(rules: Rules, best: u64) -> u64
    requires { 1 ≤ rules.scale }
    ensures { IsRoom rules (Some best) result }
{
    if best <= rules.error {
        return 0;
    }
    rules
        .scale
        .saturating_mul(best - 1 - rules.error)
        .saturating_add(1)
}
