//! Lists of variables, and the places of variables in them.

ghost use Rattle.std.specs.Prelude.{◌≡◌, ◌==◌, ◌<◌, length, map, slice_index, IfOk};
ghost use Rattle.std.specs.List.{All, position};
ghost use Rattle.dcop_base.specs.Table.{has, has_repeat};

use crate::memory::NoMemory;
use crate::number::VarId;
use crate::sequence::SizeList;
use std::alloc::Global;

/// Whether the list contains the variable.
pub fn stands_in(vars: &[VarId], sought: VarId) -> bool
    ensures { result ≡ has vars.now sought }
{
    vars.iter().any(|var| *var == sought)
}

/// The first place of the variable in the list; `None` if it is not there.
pub fn position_of(vars: &[VarId], sought: VarId) -> Option<usize>
    ensures { result ≡ position (λ v. v == sought) vars.now }
{
    vars.iter().position(|var| *var == sought)
}

/// Whether a variable occurs twice.
pub fn repeats(scope: &[VarId]) -> bool
    ensures { result ≡ has_repeat scope.now }
{
    let mut rest = scope;
    while let Some((first, later)) = rest.split_first() {
        if stands_in(later, *first) {
            return true;
        }
        rest = later;
    }
    false
}

/// The sizes of these variables, in their order. `sizes` has those of all variables.
///
/// # Errors
///
/// [`NoMemory`] if memory runs out.
pub fn sizes_of(alloc: Global, sizes: &[u16], vars: &[VarId]) -> Result<SizeList, NoMemory>
    requires { All (λ v. v < length sizes.now) vars.now }
    ensures { IfOk result (λ own. own ≡ map (λ v. slice_index sizes.now v) vars.now) }
{
    let mut own = SizeList::new(alloc);
    for var in vars {
        own.push(sizes[var.0 as usize])?;
    }
    Ok(own)
}
