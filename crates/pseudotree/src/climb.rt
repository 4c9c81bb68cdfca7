//! The paths of a tree, found by climbing from each variable to the root.

ghost use Rattle.std.specs.Prelude.{◌≡◌, ℕ, ◌<◌, ◌≤◌, ◌++◌, length, reverse, IfOk, IfErr, MatchOption};
ghost use Rattle.dcop_base.specs.Limits.{variable_limit};
ghost use Rattle.pseudotree.specs.Tree.{path_of};
ghost use Rattle.pseudotree.specs.Fault.{root_count, ReachesRoot};
ghost use Rattle.pseudotree.specs.Climb.{AreKnown, LeadsTo, ArePaths, IsLoopFault};

use crate::fault::TreeFault;
use dcop_base::{MAX_VARIABLES, NoMemory, VarId, VarList};
use std::alloc::Global;

/// The number of variables without a parent.
pub(crate) fn root_count(parents: &[Option<VarId>]) -> u64
    ensures { result ≡ root_count parents.now }
{
    parents.iter().filter(|parent| parent.is_none()).count() as u64
}

/// The path of each variable, or the lowest variable whose parents do not reach a root.
pub(crate) fn paths_of(alloc: Global, parents: &[Option<VarId>]) -> Result<Vec<VarList>, TreeFault>
    requires few { length parents.now ≤ variable_limit }
    requires known { AreKnown parents.now }
    ensures paths { IfOk result (λ paths. ArePaths parents.now paths.items) }
    ensures fault { IfErr result (IsLoopFault parents.now) }
{
    let mut paths = Vec::with_capacity(alloc, parents.len()).map_err(NoMemory::from)?;
    let mut climb = Vec::new(alloc);
    for index in 0..parents.len() {
        let var = VarId(index as u32);
        match path_to(alloc, parents, paths.as_slice(), &mut climb, var)? {
            Some(path) => paths.push(path).map_err(NoMemory::from)?,
            None => return Err(TreeFault::Loop { var }),
        }
    }
    Ok(paths)
}

/// The path to a variable; `None` if its parents do not reach a root.
///
/// The climb ends at the first variable whose path is known. `climb` is room for the variables on
/// the way.
fn path_to(
    alloc: Global,
    parents: &[Option<VarId>],
    paths: &[VarList],
    climb: &mut Vec<VarId>,
    var: VarId,
) -> Result<Option<VarList>, NoMemory>
    requires within { var < length parents.now }
    requires known { AreKnown parents.now }
    requires paths { (v : ℕ) → v < length paths.now → LeadsTo parents.now v (path_of paths.now v) }
    ensures { IfOk result (λ path.
        MatchOption path (¬ ReachesRoot parents.now var) (LeadsTo parents.now var)) }
{
    climb.clear();
    let mut above = parents[var.0 as usize];
    for _step in 0..parents.len() {
        let Some(ancestor) = above else {
            let path = path_through(alloc, &[], climb.as_mut_slice())?;
            return Ok(Some(path));
        };
        climb.push(ancestor)?;
        if let Some(known) = paths.get(ancestor.0 as usize) {
            let path = path_through(alloc, known.as_slice(), climb.as_mut_slice())?;
            return Ok(Some(path));
        }
        above = parents[ancestor.0 as usize];
    }
    Ok(None)
}

/// A known path followed by the climb that led to its end, in reverse order. Reverses `climb` in
/// place.
fn path_through(alloc: Global, known: &[VarId], climb: &mut [VarId]) -> Result<VarList, NoMemory>
    ensures { IfOk result (λ path. path ≡ known.now ++ reverse climb.old) }
{
    climb.reverse();
    let mut path = Vec::with_capacity(alloc, known.len() + climb.len())?;
    path.extend_from_slice(known)?;
    path.extend_from_slice(climb)?;
    Ok(VarList::shared(alloc, path)?)
}
