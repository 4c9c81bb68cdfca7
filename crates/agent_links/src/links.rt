//! Links from each agent to each of its neighbours.

ghost use Rattle.std.specs.Prelude.{◌≡◌, ◌<◌, ◌≤◌, ◌∷◌, [], length, replicate, IfOk, OnOk};
ghost use Rattle.std.specs.List.{All};
ghost use Rattle.dcop_base.specs.Limits.{variable_limit};
ghost use Rattle.agent_links.specs.Beside.{AreBeside, neighbours_in};
ghost use Rattle.agent_links.specs.Links.{rows_in, pushed, one_node, AreLinks, AddLinks, AddAllLinks};

use agent_cells::{HeadList, Sealed, TailList};
use dcop_base::{NoMemory, Private, VarId};
use fifo_links::link;
use std::alloc::Global;

/// The ends of the links of all agents, in the agents' order: those on which each one sends, and
/// those from which it takes, each with the neighbour at the other end.
#[derive(Drop)]
pub struct Links {
    /// The ends on which each agent sends.
    pub tails: Vec<TailList>,
    /// The ends from which each agent takes.
    pub heads: Vec<HeadList>,
}

/// Makes a link from each agent to each of its neighbours, on which nothing was sent. Item i of
/// `known` is what agent i knows.
///
/// # Errors
///
/// [`NoMemory`] if memory runs out.
pub fn link_all(alloc: Global, known: &[Private]) -> Result<Links, NoMemory>
    requires few { length known.now ≤ variable_limit }
    requires beside { AreBeside (neighbours_in known.now) }
    ensures { IfOk result (λ l. AreLinks (neighbours_in known.now) (rows_in l.tails.items) (rows_in l.heads.items)) }
{
    let mut tails = empty_rows(alloc, known)?;
    let mut heads = empty_rows(alloc, known)?;
    link_rows(alloc, known, tails.as_mut_slice(), heads.as_mut_slice())?;
    Ok(Links { tails, heads })
}

/// An empty list for each agent, with room for one item for each neighbour.
fn empty_rows<T: Drop>(alloc: Global, known: &[Private]) -> Result<Vec<Vec<T>>, NoMemory>
    ensures { IfOk result (λ rows. rows_in rows.items ≡ replicate (length known.now) []) }
{
    let mut rows = Vec::with_capacity(alloc, known.len())?;
    for own in known {
        rows.push(Vec::with_capacity(alloc, own.neighbours.as_slice().len())?)?;
    }
    Ok(rows)
}

/// Links each agent to each of its neighbours.
fn link_rows(
    alloc: Global,
    known: &[Private],
    tails: &mut [TailList],
    heads: &mut [HeadList],
) -> Result<(), NoMemory>
    requires few { length known.now ≤ variable_limit }
    requires beside { AreBeside (neighbours_in known.now) }
    requires tails { length tails.old ≡ length known.now }
    requires heads { length heads.old ≡ length known.now }
    ensures added { OnOk result (AddAllLinks one_node (neighbours_in known.now) (rows_in tails.old) (rows_in heads.old) (rows_in tails.new) (rows_in heads.new)) }
    ensures tails { length tails.new ≡ length tails.old }
    ensures heads { length heads.new ≡ length heads.old }
{
    for (from, own) in known.iter().enumerate() {
        link_row(alloc, from, own.neighbours.as_slice(), tails, heads)?;
    }
    Ok(())
}

/// Links one agent to each of its neighbours.
fn link_row(
    alloc: Global,
    from: usize,
    neighbours: &[VarId],
    tails: &mut [TailList],
    heads: &mut [HeadList],
) -> Result<(), NoMemory>
    requires few { length tails.old ≤ variable_limit }
    requires alike { length heads.old ≡ length tails.old }
    requires from { from < length tails.old }
    requires to { All (λ j. j < length tails.old) neighbours.now }
    ensures added { OnOk result (AddLinks one_node from neighbours.now (rows_in tails.old) (rows_in heads.old) (rows_in tails.new) (rows_in heads.new)) }
    ensures tails { length tails.new ≡ length tails.old }
    ensures heads { length heads.new ≡ length heads.old }
{
    for to in neighbours {
        link_one(alloc, from, to.0 as usize, tails, heads)?;
    }
    Ok(())
}

/// Links one agent to another.
fn link_one(
    alloc: Global,
    from: usize,
    to: usize,
    tails: &mut [TailList],
    heads: &mut [HeadList],
) -> Result<(), NoMemory>
    requires few { length tails.old ≤ variable_limit }
    requires alike { length heads.old ≡ length tails.old }
    requires from { from < length tails.old }
    requires to { to < length tails.old }
    ensures added { OnOk result (AddLinks one_node from (to ∷ []) (rows_in tails.old) (rows_in heads.old) (rows_in tails.new) (rows_in heads.new)) }
    ensures tails { length tails.new ≡ length tails.old }
    ensures heads { length heads.new ≡ length heads.old }
{
    let Ok((tail, head)) = link::<Sealed>(alloc) else {
        return Err(NoMemory);
    };
    push_at(tails, from, (VarId(to as u32), tail))?;
    push_at(heads, to, (VarId(from as u32), head))?;
    Ok(())
}

/// Appends an item to the list at this place.
fn push_at<T: Drop>(rows: &mut [Vec<T>], at: usize, item: T) -> Result<(), NoMemory>
    requires inside { at < length rows.old }
    ensures added { OnOk result (rows_in rows.new ≡ pushed at item (rows_in rows.old)) }
    ensures size { length rows.new ≡ length rows.old }
{
    rows[at].push(item)?;
    Ok(())
}
