//! One visit of a cell for each kind of agent: the root 0 above its child 1, between real links.
//!
//! The crate of cells knows no kind of agent.

ghost use Rattle.std.specs.Prelude.{◌≡◌, ◌∷◌, [], false, IfOk};
ghost use Rattle.protocol_steps.specs.Ranges.{IsInRange};
ghost use Rattle.protocol_steps.specs.Knowledge.{IsKnowledge};
ghost use Rattle.protocol_steps.specs.View.{private_of, started_of};
ghost use Rattle.agent_cells.specs.State.{begun_in, IsCell};

use adopt_agent::AdoptAgent;
use adopt_context::AgentContext;
use agent_cells::{Cell, Sealed};
use dcop_base::{CellList, NoMemory, Private, SizeList, TableList, Val, VarId, VarList};
use dcop_edge::OpenGate;
use dfs_agent::TokenAgent;
use dpop_agent::DpopAgent;
use fifo_links::{LinkHead, LinkTail, SLOTS, link};
use protocol_steps::{Envelope, Machine, Message};
use pseudotree::Place;
use std::alloc::Global;
use std::process::Abort;
use std::test::Fail;

/// The child alone.
fn child(alloc: Global) -> Result<VarList, NoMemory>
    ensures { IfOk result (λ vars. vars ≡ 1 ∷ []) }
{
    Ok(VarList::from_vec(vec![in alloc; VarId(1)]?))
}

/// What the root knows.
fn known(alloc: Global) -> Result<Private, NoMemory>
    ensures known { IfOk result IsKnowledge }
    ensures me { IfOk result (λ own. own.me ≡ 0) }
    ensures near { IfOk result (λ own. own.neighbours ≡ 1 ∷ []) }
{
    Ok(Private {
        me: VarId(0),
        size: 1,
        neighbours: child(alloc)?,
        neighbour_sizes: SizeList::from_vec(vec![in alloc; 1]?),
        tables: TableList::from_vec(Vec::new(alloc)),
    })
}

/// The root's place in the tree.
fn above(alloc: Global) -> Result<Place, NoMemory>
    ensures { IfOk result (λ place. place ≡ (record {
      me = 0;
      path = [];
      path_sizes = [];
      children = 1 ∷ [];
      lower = 1 ∷ [];
    })) }
{
    Ok(Place {
        me: VarId(0),
        path: VarList::from_vec(Vec::new(alloc)),
        path_sizes: SizeList::from_vec(Vec::new(alloc)),
        children: child(alloc)?,
        lower: child(alloc)?,
    })
}

/// The root's cell, and the child's ends of its two links.
fn cell_of(
    alloc: Global,
    machine: Box<dyn Machine + Send>,
) -> Result<(Cell, LinkTail<Sealed>, LinkHead<Sealed>), NoMemory>
    requires fresh { started_of (meaning machine) ≡ false }
    requires me { (private_of (meaning machine)).me ≡ 0 }
    requires near { (private_of (meaning machine)).neighbours ≡ 1 ∷ [] }
    ensures cell { IfOk result (λ made. IsCell (λ b. meaning b) made.0) }
    ensures begun { IfOk result (λ made. begun_in made.0 ≡ false) }
{
    let Ok((child_tail, head)) = link::<Sealed>(alloc) else {
        return Err(NoMemory);
    };
    let Ok((tail, child_head)) = link::<Sealed>(alloc) else {
        return Err(NoMemory);
    };
    let mut tails = Vec::new(alloc);
    tails.push((VarId(1), tail))?;
    let mut heads = Vec::new(alloc);
    heads.push((VarId(1), head))?;
    let cell = Cell::new(alloc, machine, VarId(0), tails, heads)?;
    Ok((cell, child_tail, child_head))
}

/// Starts the root and visits it once, with this message of its child on the child's link. That
/// ends its agent.
fn visit_once(
    rt: &impl Abort,
    alloc: Global,
    cell: &mut Cell,
    child: &mut LinkTail<Sealed>,
    message: Message,
) -> Result<(), Fail>
    requires cell { IsCell (λ b. meaning (b.vtable, b.value)) cell.old }
    requires begun { begun_in cell.old ≡ false }
    requires range { IsInRange message }
{
    cell.begin()?;
    assert!(rt; !cell.ended());
    assert!(rt;
        child
            .push(Sealed::new(alloc, Envelope { stamp: 4, message })?)
            .is_ok()
    );
    assert!(rt; cell.visit(&OpenGate)? == 1);
    let entries = cell.journal().as_slice();
    assert!(rt; entries.len() == 1);
    assert!(rt; entries[0].stamp == 5);
    assert!(rt; cell.ended());
    Ok(())
}

/// What is seen of the root after its visit.
#[derive(Drop)]
struct Seen {
    /// Whether its cell has a place.
    has_place: bool,
    /// Whether its cell has a table.
    has_table: bool,
    /// Its lower bound.
    lower: u64,
    /// The stamps of what it sent to its child.
    stamps: Vec<u64>,
}

/// What is seen of an agent of the root that was visited once, with this message of its child.
fn seen_of(
    rt: &impl Abort,
    alloc: Global,
    machine: Box<dyn Machine + Send>,
    message: Message,
) -> Result<Seen, Fail>
    requires fresh { started_of (meaning machine) ≡ false }
    requires me { (private_of (meaning machine)).me ≡ 0 }
    requires near { (private_of (meaning machine)).neighbours ≡ 1 ∷ [] }
    requires range { IsInRange message }
{
    let (mut cell, mut tail, mut head) = cell_of(alloc, machine)?;
    visit_once(rt, alloc, &mut cell, &mut tail, message)?;
    Ok(Seen {
        has_place: cell.place().is_some(),
        has_table: cell.table().is_some(),
        lower: cell.standing().lower,
        stamps: stamps(alloc, &mut head)?,
    })
}

/// The stamps of what the child finds on its link from the root.
fn stamps(alloc: Global, child: &mut LinkHead<Sealed>) -> Result<Vec<u64>, NoMemory> {
    let mut found = Vec::with_capacity(alloc, SLOTS)?;
    child.take_all(&mut found);
    let mut stamps = Vec::new(alloc);
    for sealed in found {
        stamps.push(sealed.open().stamp)?;
    }
    Ok(stamps)
}

/// The child has visited itself alone.
fn done(alloc: Global) -> Result<Message, NoMemory>
    ensures { IfOk result IsInRange }
{
    Ok(Message::Done {
        visited: child(alloc)?,
    })
}

/// The table of the child: it costs nothing at the root's only value.
fn util(alloc: Global) -> Result<Message, NoMemory>
    ensures { IfOk result IsInRange }
{
    Ok(Message::Util {
        scope: VarList::from_vec(vec![in alloc; VarId(0)]?),
        cells: CellList::from_vec(vec![in alloc; 0]?),
    })
}

/// The bounds of the child for the root's only value: it costs 3.
fn cost(alloc: Global) -> Result<Message, NoMemory>
    ensures { IfOk result IsInRange }
{
    let mut context = AgentContext::new(alloc);
    context.set(VarId(0), Val(0))?;
    Ok(Message::Cost {
        context,
        lower: 3,
        upper: Some(3),
    })
}

#[test]
fn a_token_agent_ends_in_one_visit(rt: HostRuntime) -> Result<(), Fail> {
    let alloc = rt.alloc();
    let agent = TokenAgent::new(alloc, known(alloc)?)?;
    let seen = seen_of(&rt, alloc, Box::new(alloc, agent)?, done(alloc)?)?;
    assert!(rt; seen.has_place);
    assert!(rt; seen.stamps.as_slice() == [0].as_slice());
    Ok(())
}

#[test]
fn a_dpop_agent_ends_in_one_visit(rt: HostRuntime) -> Result<(), Fail> {
    let alloc = rt.alloc();
    let agent = DpopAgent::new(alloc, known(alloc)?, above(alloc)?)?;
    let seen = seen_of(&rt, alloc, Box::new(alloc, agent)?, util(alloc)?)?;
    assert!(rt; seen.has_table);
    assert!(rt; seen.stamps.as_slice() == [5].as_slice());
    Ok(())
}

#[test]
fn an_adopt_agent_ends_in_one_visit(rt: HostRuntime) -> Result<(), Fail> {
    let alloc = rt.alloc();
    let agent = AdoptAgent::new(alloc, known(alloc)?, above(alloc)?, 0)?;
    let seen = seen_of(&rt, alloc, Box::new(alloc, agent)?, cost(alloc)?)?;
    assert!(rt; seen.lower == 3);
    assert!(rt; matches!(seen.stamps.last(), Some(5)));
    Ok(())
}
