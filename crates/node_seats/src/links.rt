//! Links from each agent to each of its neighbours, in nodes.

ghost use Rattle.std.specs.Prelude.{◌≡◌, ◌≢◌, ℕ, ◌+◌, ◌<◌, ◌≤◌, ◌∷◌, [], length, replicate, IfOk, OnOk, OnErr};
ghost use Rattle.std.specs.List.{All};
ghost use Rattle.std.specs.List.Sorted.{IsStrictlyIncreasing};
ghost use Rattle.dcop_base.specs.Limits.{variable_limit};
ghost use Rattle.agent_links.specs.Beside.{AreBeside, neighbours_in};
ghost use Rattle.agent_links.specs.Links.{rows_in, pushed};
ghost use Rattle.link_records.specs.Differences.{IsLowerLink};
ghost use Rattle.link_records.specs.Left.{fresh_link};
ghost use Rattle.tcp_links.specs.Plans.{IsPlan, IsNewPlan, IsSamePlan, HasNoLink};
ghost use Rattle.node_seats.specs.Links.{AreLinksOver, IsNodeLink, AreLinksBefore, AddLinksOver, AddAllLinksOver};
ghost use Rattle.node_seats.specs.Seats.{IsSameFrame};

use agent_cells::{HeadList, Sealed, TailList};
use agent_links::Links;
use dcop_base::{NoMemory, Private, VarId};
use fifo_links::{LinkHead, LinkTail, link};
use std::alloc::Global;
use tcp_links::NodePlan;
use wire_pump::Wire;

/// A link from each agent to each of its neighbours: a ring inside a node, and a link of the plan
/// between two nodes. Nothing was sent on any of them. `known` has what each agent knows, agent i
/// at position i.
///
/// # Errors
///
/// [`NoMemory`] if memory runs out. The plan may then have some of the links.
pub fn link_over<W: Wire>(
    alloc: Global,
    known: &[Private],
    plan: &mut NodePlan<W>,
) -> Result<Links, NoMemory>
    requires few { length known.now ≤ variable_limit }
    requires beside { AreBeside (neighbours_in known.now) }
    requires plan { IsNewPlan (length known.now) plan.old.nodes plan.old }
    ensures links { IfOk result (λ l. AreLinksOver (neighbours_in known.now) plan.new (rows_in l.tails.items) (rows_in l.heads.items)) }
    ensures frame { IsSameFrame plan.old plan.new }
{
    let mut tails = empty_rows(alloc, known.len())?;
    let mut heads = empty_rows(alloc, known.len())?;
    link_rows(
        alloc,
        known,
        plan,
        tails.as_mut_slice(),
        heads.as_mut_slice(),
    )?;
    Ok(Links { tails, heads })
}

/// `count` empty lists.
fn empty_rows<T: Drop>(alloc: Global, count: usize) -> Result<Vec<Vec<T>>, NoMemory>
    ensures { IfOk result (λ rows. rows_in rows.items ≡ replicate count []) }
{
    let mut rows = Vec::with_capacity(alloc, count)?;
    for _ in 0..count {
        rows.push(Vec::new(alloc))?;
    }
    Ok(rows)
}

/// Links each agent to each of its neighbours.
fn link_rows<W: Wire>(
    alloc: Global,
    known: &[Private],
    plan: &mut NodePlan<W>,
    tails: &mut [TailList],
    heads: &mut [HeadList],
) -> Result<(), NoMemory>
    requires few { length known.now ≤ variable_limit }
    requires beside { AreBeside (neighbours_in known.now) }
    requires plan { IsNewPlan (length known.now) plan.old.nodes plan.old }
    requires tails { length tails.old ≡ length known.now }
    requires heads { length heads.old ≡ length known.now }
    requires before { AreLinksBefore plan.old 0 0 (rows_in tails.old) (rows_in heads.old) }
    ensures added { OnOk result (AddAllLinksOver (neighbours_in known.now) plan.old (rows_in tails.old) (rows_in heads.old) plan.new (rows_in tails.new) (rows_in heads.new)) }
    ensures frame { IsSameFrame plan.old plan.new }
    ensures tails { length tails.new ≡ length tails.old }
    ensures heads { length heads.new ≡ length heads.old }
{
    for (from, own) in known.iter().enumerate() {
        link_row(alloc, from, own.neighbours.as_slice(), plan, tails, heads)?;
    }
    Ok(())
}

/// Links one agent to each of its neighbours.
fn link_row<W: Wire>(
    alloc: Global,
    from: usize,
    neighbours: &[VarId],
    plan: &mut NodePlan<W>,
    tails: &mut [TailList],
    heads: &mut [HeadList],
) -> Result<(), NoMemory>
    requires plan { IsPlan plan.old }
    requires tails { length tails.old ≡ plan.old.agents }
    requires heads { length heads.old ≡ plan.old.agents }
    requires from { from < plan.old.agents }
    requires to { All (λ j. j < plan.old.agents) neighbours.now }
    requires ascend { IsStrictlyIncreasing neighbours.now }
    requires before { AreLinksBefore plan.old from 0 (rows_in tails.old) (rows_in heads.old) }
    ensures added { OnOk result (AddLinksOver from neighbours.now plan.old (rows_in tails.old) (rows_in heads.old) plan.new (rows_in tails.new) (rows_in heads.new)) }
    ensures before { OnOk result (AreLinksBefore plan.new (from + 1) 0 (rows_in tails.new) (rows_in heads.new)) }
    ensures frame { IsSameFrame plan.old plan.new }
    ensures tails { length tails.new ≡ length tails.old }
    ensures heads { length heads.new ≡ length heads.old }
{
    for to in neighbours {
        link_one(alloc, from, to.0 as usize, plan, tails, heads)?;
    }
    Ok(())
}

/// Links one agent to another.
fn link_one<W: Wire>(
    alloc: Global,
    from: usize,
    to: usize,
    plan: &mut NodePlan<W>,
    tails: &mut [TailList],
    heads: &mut [HeadList],
) -> Result<(), NoMemory>
    requires plan { IsPlan plan.old }
    requires tails { length tails.old ≡ plan.old.agents }
    requires heads { length heads.old ≡ plan.old.agents }
    requires from { from < plan.old.agents }
    requires to { to < plan.old.agents }
    requires before { AreLinksBefore plan.old from to (rows_in tails.old) (rows_in heads.old) }
    ensures added { OnOk result (AddLinksOver from (to ∷ []) plan.old (rows_in tails.old) (rows_in heads.old) plan.new (rows_in tails.new) (rows_in heads.new)) }
    ensures before { OnOk result ((i j : ℕ) → IsLowerLink (fresh_link from to) (fresh_link i j) → AreLinksBefore plan.new i j (rows_in tails.new) (rows_in heads.new)) }
    ensures frame { IsSameFrame plan.old plan.new }
    ensures tails { length tails.new ≡ length tails.old }
    ensures heads { length heads.new ≡ length heads.old }
{
    let (tail, head) = new_link(alloc, plan, VarId(from as u32), VarId(to as u32))?;
    push_at(tails, from, (VarId(to as u32), tail))?;
    push_at(heads, to, (VarId(from as u32), head))?;
    Ok(())
}

/// The outer ends of a new link: those of a ring if both agents are in one node, else those of a
/// link of the plan.
fn new_link<W: Wire>(
    alloc: Global,
    plan: &mut NodePlan<W>,
    from: VarId,
    to: VarId,
) -> Result<(LinkTail<Sealed>, LinkHead<Sealed>), NoMemory>
    requires plan { IsPlan plan.old }
    requires inside { (from < plan.old.agents) × (to < plan.old.agents) }
    requires none { HasNoLink plan.old from to }
    ensures made { IfOk result (λ l. IsNodeLink plan.old from to l.0 l.1 plan.new) }
    ensures same { OnErr result (IsSamePlan plan.old plan.new) }
    ensures frame { IsSameFrame plan.old plan.new }
{
    if !plan.are_together(from, to) {
        return plan.link(alloc, from, to);
    }
    let Ok(ends) = link::<Sealed>(alloc) else {
        return Err(NoMemory);
    };
    Ok(ends)
}

/// Adds an item to the list at position `at`.
fn push_at<T: Drop>(rows: &mut [Vec<T>], at: usize, item: T) -> Result<(), NoMemory>
    requires inside { at < length rows.old }
    ensures added { OnOk result (rows_in rows.new ≡ pushed at item (rows_in rows.old)) }
    ensures size { length rows.new ≡ length rows.old }
{
    rows[at].push(item)?;
    Ok(())
}
