//! The lists that an agent makes from its path and its kept subtrees, and the messages made from
//! them.

ghost use Rattle.std.specs.Prelude.{◌≡◌, ◌<◌, ◌≤◌, [], ◌∷◌, ◌++◌, length, take, IfOk};
ghost use Rattle.std.specs.List.{concat, flat_map};
ghost use Rattle.dcop_base.specs.Limits.{variable_limit};
ghost use Rattle.protocol_steps.specs.Agent.{last_of};
ghost use Rattle.protocol_steps.specs.TokenStep.{done_for};
ghost use Rattle.protocol_steps.specs.declared.message.Message.TheVariants.{Token};
ghost use Rattle.dfs_agent.specs.Search.{sent};
ghost use Rattle.dfs_agent.specs.Sound.{AreOthers};

use dcop_base::{NoMemory, SizeList, VarId, VarList};
use protocol_steps::{Message, Parcel};
use pseudotree::Place;
use std::alloc::Global;

/// The number of variables in these lists together.
pub(crate) fn count_of(lists: &[VarList]) -> usize
    requires { length (concat lists.now) ≤ variable_limit }
    ensures { result ≡ length (concat lists.now) }
{
    let mut count = 0;
    for vars in lists {
        count += vars.as_slice().len();
    }
    count
}

/// The first variable of each subtree.
pub(crate) fn children_of(alloc: Global, kept: &[VarList]) -> Result<VarList, NoMemory>
    ensures { IfOk result (λ children. children ≡ flat_map (λ subtree. take 1 subtree) kept.now) }
{
    let mut children = VarList::new(alloc);
    for subtree in kept {
        if let Some(child) = subtree.as_slice().first() {
            children.push(*child)?;
        }
    }
    Ok(children)
}

/// The agent's variable, and then the subtrees of its children.
#[tactic(auto, using(crate::proofs::VisitLaws::concat_more))]
fn subtree_of(alloc: Global, me: VarId, kept: &[VarList]) -> Result<VarList, NoMemory>
    requires { length (concat kept.now) ≤ variable_limit }
    ensures { IfOk result (λ subtree. subtree ≡ me ∷ concat kept.now) }
{
    let mut subtree = Vec::with_capacity(alloc, count_of(kept) + 1)?;
    subtree.push(me)?;
    for vars in kept {
        subtree.extend_from_slice(vars.as_slice())?;
    }
    Ok(VarList::shared(alloc, subtree)?)
}

/// A list of the same variables. If their memory is shared, the copy shares it too.
pub(crate) fn copy_of(vars: &VarList) -> Result<VarList, NoMemory>
    ensures { IfOk result (λ list. list ≡ vars.now) }
{
    Ok(vars.clone()?)
}

/// The place of an agent whose subtree has been searched, without the sizes of its path.
pub(crate) fn place_of(
    alloc: Global,
    me: VarId,
    path: VarList,
    children: VarList,
    lower: VarList,
) -> Place
    ensures { result ≡ (record {
      me = me;
      path = path;
      path_sizes = [];
      children = children;
      lower = lower;
    }) }
{
    Place {
        me,
        path,
        path_sizes: SizeList::new(alloc),
        children,
        lower,
    }
}

/// The token for a child, with the path that ends in the agent.
pub(crate) fn token_for(
    alloc: Global,
    child: VarId,
    path: &[VarId],
    me: VarId,
) -> Result<Parcel, NoMemory>
    requires path { AreOthers path.now }
    requires me { me < variable_limit }
    ensures { IfOk result (λ parcel. parcel ≡ (child, Token (path.now ++ (me ∷ [])))) }
{
    let mut through = Vec::with_capacity(alloc, path.len() + 1)?;
    through.extend_from_slice(path)?;
    through.push(me)?;
    let path = VarList::shared(alloc, through)?;
    Ok(Parcel {
        to: child,
        message: Message::Token { path },
    })
}

/// The searched subtree for the parent; `None` exactly if the path is empty.
pub(crate) fn done_for(
    alloc: Global,
    me: VarId,
    path: &[VarId],
    kept: &[VarList],
) -> Result<Option<Parcel>, NoMemory>
    requires kept { AreOthers (concat kept.now) }
    requires me { me < variable_limit }
    ensures { IfOk result (λ parcel. sent parcel
        ≡ done_for (last_of path.now) (me ∷ concat kept.now)) }
{
    match path.last() {
        None => Ok(None),
        Some(parent) => Ok(Some(Parcel {
            to: *parent,
            message: Message::Done {
                visited: subtree_of(alloc, me, kept)?,
            },
        })),
    }
}
