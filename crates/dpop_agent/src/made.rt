//! Tables that are made anew for an agent, given its children's tables.

ghost use Rattle.std.specs.Prelude.{◌≡◌, ◌+◌, ◌++◌, ◌<◌, ◌≤◌, [], length, map, IfOk, OnOk};
ghost use Rattle.std.specs.List.{All, concat, flat_map};
ghost use Rattle.protocol_steps.specs.Dpop.{kept_scopes, there};
ghost use Rattle.util_join.specs.Join.{LiesIn};
ghost use Rattle.dpop_agent.specs.Joint.{HasGained, IsJoint};
ghost use Rattle.dpop_agent.specs.Remade.{IsRemade, MayRemake, joined_count, sent_of, with_sent};

use crate::joint::{add_own, zeros_over};
use crate::separator::variables_with;
use crate::steps::Steps;
use dcop_base::{NoMemory, Private, Table, VarId, VarList};
use pseudotree::Place;
use std::alloc::Global;
use std::sync::ledger::Ledger;
use util_join::Joined;
use util_project::project;

/// The tables of one DPOP step of an agent: its joined table, and the table that it sends to its
/// parent. Only [`remake`] makes a value of this type.
#[derive(Debug, Drop)]
pub struct Made {
    joined: Table,
    sent: Table,
}

/// What was made for each variable, if anything was.
pub type KeptList = Vec<Option<Made>>;

impl Made {
    /// The joined table.
    pub fn joined(&self) -> &Table
        ensures { result.now ≡ self.now.joined }
    {
        &self.joined
    }

    /// The table for the parent: the joined table without the agent's own variable.
    pub fn sent(&self) -> &Table
        ensures { result.now ≡ self.now.sent }
    {
        &self.sent
    }
}

/// Makes the tables of an agent's DPOP step, from those that were made for its children. The count
/// of steps rises by the number of joined cells.
///
/// `kept` has an entry for each variable. The entries of the children are there. The tables that
/// they sent are over variables of the path, from the root down, and then the agent. The joined
/// table has at most [`MAX_JOINED_CELLS`](pseudotree::MAX_JOINED_CELLS) cells.
///
/// # Errors
///
/// [`NoMemory`] if memory runs out. The count of steps may have risen in that case, by no more than
/// the number of joined cells.
pub fn remake<L: Ledger>(
    alloc: Global,
    own: &Private,
    place: &Place,
    kept: &KeptList,
    steps: &mut Steps<L>,
) -> Result<Made, NoMemory>
    requires { MayRemake own.now place.now kept.now.items }
    ensures made { IfOk result (IsRemade (with_sent own.now place.now kept.now.items)) }
    ensures counted { IfOk result (λ _. steps.new
        ≡ steps.old + joined_count (with_sent own.now place.now kept.now.items)) }
    ensures rises { steps.old ≤ steps.new }
    ensures within { steps.new
        ≤ steps.old + joined_count (with_sent own.now place.now kept.now.items) }
{
    let joined = joined_with(alloc, own, place, kept.as_slice())?;
    steps.add(joined.cells.as_slice().len() as u64);
    let sent = project(alloc, &joined, own.me)?;
    Ok(Made { joined, sent })
}

/// The sum of the agent's own tables and the tables that its children sent.
fn joined_with(
    alloc: Global,
    own: &Private,
    place: &Place,
    kept: &[Option<Made>],
) -> Result<Table, NoMemory>
    requires { MayRemake own.now place.now kept.now }
    ensures { IfOk result (IsJoint (with_sent own.now place.now kept.now)) }
{
    let children = place.children.as_slice();
    let named = named_by(alloc, children, kept)?;
    let over = variables_with(alloc, own, place, &[], named.as_slice())?;
    let Some(mut joined) = zeros_over(alloc, over)? else {
        // The condition excludes a table that is too wide.
        unreachable!()
    };
    add_own(
        &mut joined,
        own.tables.as_slice(),
        own.me,
        place.path.as_slice(),
        place.lower.as_slice(),
    );
    add_sent(&mut joined, children, kept);
    Ok(joined.table())
}

/// The variables of the tables that these children sent, one scope after the other.
fn named_by(alloc: Global, children: &[VarId], kept: &[Option<Made>]) -> Result<VarList, NoMemory>
    requires { All (λ c. c < length kept.now) children.now }
    ensures { IfOk result (λ vars. vars
        ≡ concat (map (λ t. t.scope) (flat_map there (sent_of kept.now children.now)))) }
{
    let mut vars = VarList::new(alloc);
    for child in children {
        if let Some(made) = &kept[child.0 as usize] {
            append(&mut vars, made.sent.scope.as_slice())?;
        }
    }
    Ok(vars)
}

/// Adds these variables at the end of a list.
fn append(vars: &mut VarList, more: &[VarId]) -> Result<(), NoMemory>
    ensures { OnOk result (vars.new ≡ vars.old ++ more.now) }
{
    for var in more {
        vars.push(*var)?;
    }
    Ok(())
}

/// Adds the tables that these children sent.
fn add_sent(joined: &mut Joined, children: &[VarId], kept: &[Option<Made>])
    requires inside { All (λ c. c < length kept.now) children.now }
    requires lie { All (LiesIn joined.old.scope joined.old.sizes)
        (flat_map there (sent_of kept.now children.now)) }
    ensures { HasGained (flat_map there (sent_of kept.now children.now)) joined.old joined.new }
{
    for child in children {
        if let Some(made) = &kept[child.0 as usize] {
            joined.add(&made.sent);
        }
    }
}
