//! The place of an agent in a tree.

ghost use Rattle.std.specs.Prelude.{◌≡◌, ◌<◌, length, IfOk, All, map, slice_index};
ghost use Rattle.pseudotree.specs.Pseudotree.{IsPseudotreeOf};
ghost use Rattle.pseudotree.specs.Place.{IsPlaceOf};

use crate::agent::Place;
use crate::tree::Tree;
use dcop_base::{NoMemory, Problem, SizeList, VarId, VarList};
use std::alloc::Global;

/// The place of variable `me` in a tree of this problem.
///
/// # Errors
///
/// [`NoMemory`] if memory runs out.
pub fn place(alloc: Global, tree: &Tree, problem: &Problem, me: VarId) -> Result<Place, NoMemory>
    requires pseudotree { IsPseudotreeOf problem.now tree.now }
    requires within { me < length problem.now.sizes }
    ensures { IfOk result (IsPlaceOf problem.now tree.now.paths me) }
{
    let path = tree.path(me);
    let path_sizes = sizes_of(alloc, problem.sizes.as_slice(), path.as_slice())?;
    Ok(Place {
        me,
        path: path.clone()?,
        path_sizes,
        children: copy_of(alloc, tree.children(me).as_slice())?,
        lower: copy_of(alloc, tree.lower(me).as_slice())?,
    })
}

fn sizes_of(alloc: Global, sizes: &[u16], vars: &[VarId]) -> Result<SizeList, NoMemory>
    requires { All (λ v. v < length sizes.now) vars.now }
    ensures { IfOk result (λ list. list ≡ map (slice_index sizes.now) vars.now) }
{
    let mut list = vec![in alloc; 0; vars.len()]?;
    write_sizes(list.as_mut_slice(), sizes, vars);
    Ok(SizeList::from_vec(list))
}

/// Writes the sizes of these variables, in their order.
fn write_sizes(list: &mut [u16], sizes: &[u16], vars: &[VarId])
    requires sized { length list.old ≡ length vars.now }
    requires within { All (λ v. v < length sizes.now) vars.now }
    ensures { list.new ≡ map (slice_index sizes.now) vars.now }
{
    for (k, var) in vars.iter().enumerate() {
        list[k] = sizes[var.0 as usize];
    }
}

fn copy_of(alloc: Global, vars: &[VarId]) -> Result<VarList, NoMemory>
    ensures { IfOk result (λ list. list ≡ vars.now) }
{
    Ok(VarList::from_slice(alloc, vars)?)
}
