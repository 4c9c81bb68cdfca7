//! A cut that agents solve.

ghost use Rattle.std.specs.Prelude.{◌≡◌, ◌≤◌, true};
ghost use Rattle.std.specs.List.{All};

use crate::runs::{paw, tree_of};
use certificate_text::Turn;
use cut_dpop::{CutEnd, run_cut};
use dcop_base::{NoMemory, Val, VarId};
use dcop_edge::Gate;
use std::alloc::Global;
use std::sync::atomic::{AtomicU64, Ordering};
use std::test::Fail;

// Counts the visits of each agent.
#[derive(Drop)]
struct CountingGate {
    visits: Vec<AtomicU64>,
}

impl CountingGate {
    // A gate at which none of this many agents was visited.
    fn new(alloc: Global, count: usize) -> Result<Self, NoMemory> {
        let mut visits = Vec::new(alloc);
        for _ in 0..count {
            visits.push(AtomicU64::new(0))?;
        }
        Ok(CountingGate { visits })
    }

    // Whether each agent was visited this many times or more.
    fn each_has(&self, visits: u64) -> bool {
        for own in &self.visits {
            if own.load(Ordering::SeqCst) < visits {
                return false;
            }
        }
        true
    }
}

impl Gate for CountingGate {
    fn pass(&self, agent: VarId) {
        if let Some(own) = self.visits.get(agent.0 as usize) {
            own.fetch_add(1, Ordering::SeqCst);
        }
    }
}

// Whether no size exceeds the limit.
fn are_within(sizes: &[u16], limit: u16) -> bool
    ensures { result ≡ true → All (λ s. s ≤ limit) sizes.now }
{
    for size in sizes {
        if *size > limit {
            return false;
        }
    }
    true
}

// Whether the turn with this number has these values, and its root's table has only this cell.
fn tells(turns: &[Turn], number: usize, values: &[Val], least: u64) -> bool {
    let Some(turn) = turns.get(number) else {
        return false;
    };
    let Some(root) = turn.tables.as_slice().first() else {
        return false;
    };
    turn.values.as_slice() == values && root.cells.as_slice() == [least].as_slice()
}

// Whether the cut is 0, and two turns of six messages each found that all at 1 cost nothing.
fn is_solved(end: &CutEnd) -> bool {
    let one = Val(1);
    end.cut.as_slice() == [VarId(0)].as_slice()
        && end.turns == 2
        && end.cost == 0
        && end.deliveries == 12
        && end.values.as_slice() == [one, one, one, one].as_slice()
}

// Whether these are the tables of two turns: 0 at 0, which costs 4, and 0 at 1, which costs nothing.
fn has_two_turns(turns: &[Turn]) -> bool {
    turns.len() == 2 && tells(turns, 0, &[Val(0)], 4) && tells(turns, 1, &[Val(1)], 0)
}

#[test]
fn a_cut_of_the_paw_has_two_turns_whose_tables_are_kept(rt: HostRuntime) -> Result<(), Fail> {
    let alloc = rt.alloc();
    let paw = paw(alloc)?;
    let tree = tree_of(&rt, alloc, &paw, &[4, 0, 1, 1])?;
    assert!(rt; are_within(paw.sizes.as_slice(), 4));
    let gate = CountingGate::new(alloc, 4)?;
    let end = run_cut(&rt, alloc, &paw, &tree, 4, 1, true, &gate)?;
    assert!(rt; is_solved(&end));
    assert!(rt; has_two_turns(end.tables.as_slice()));
    assert!(rt; gate.each_has(2));
    Ok(())
}
