//! The costs of the own values after a known variable changed its value.

ghost use Rattle.std.specs.Prelude.{◌≡◌, ℕ, ◌<◌, ◌≤◌, ◌-◌, ◌==◌, false, length, nat_lt, slice_index};
ghost use Rattle.std.specs.List.{list_all};
ghost use Rattle.dcop_base.specs.Limits.{amount_limit};
ghost use Rattle.adopt_agent.specs.Sound.{AreCosts, AreTableShares, IsAdoptGround, WereShared};

use crate::costs::{add_tables, set_costs};
use adopt_context::AgentContext;
use dcop_base::{CAP, Private, VarId};
use pseudotree::Place;

/// Whether all costs are below the cap, so that none of these sums was cut off.
fn are_whole(costs: &[u64]) -> bool
    ensures { result ≡ list_all (λ c. nat_lt c amount_limit) costs.now }
{
    costs.iter().all(|cost| *cost < CAP)
}

/// Subtracts its share from each cost.
fn take_off(costs: &mut [u64], shares: &[u64])
    requires same { length shares.now ≡ length costs.old }
    requires enough { (d : ℕ) → d < length costs.old → slice_index shares.now d ≤ slice_index costs.old d }
    ensures { (d : ℕ) → d < length costs.old
        → slice_index costs.new d ≡ slice_index costs.old d - slice_index shares.now d }
{
    for (d, cost) in costs.iter_mut().enumerate() {
        *cost -= shares[d];
    }
}

/// Sets the shares to what the tables that count and name a variable add to costs of 0.
pub(crate) fn set_shares(
    shares: &mut [u64],
    own: &Private,
    place: &Place,
    known: &AgentContext,
    var: VarId,
)
    requires ground { IsAdoptGround own.now place.now known.now }
    requires counted { length shares.old ≡ own.now.size }
    ensures { AreTableShares own.now place.now known.now var shares.new }
{
    shares.fill(0);
    add_tables(shares, own, place, known, var);
}

/// The costs once one variable has another value: the shares in them of the tables that name it are
/// replaced. If a sum was cut off at the cap, all tables are added anew.
pub(crate) fn exchange(
    costs: &mut [u64],
    shares: &[u64],
    own: &Private,
    place: &Place,
    known: &AgentContext,
    var: VarId,
)
    requires ground { IsAdoptGround own.now place.now known.now }
    requires before { WereShared own.now place.now known.now var costs.old shares.now }
    ensures { AreCosts own.now place.now known.now costs.new }
{
    if !are_whole(costs) {
        set_costs(costs, own, place, known);
        return;
    }
    take_off(costs, shares);
    add_tables(costs, own, place, known, var);
}
