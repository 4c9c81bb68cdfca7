//! Variables in rows, one row for each key.

ghost use Rattle.std.specs.Prelude.{◌≡◌, ◌<◌, length, IfOk, OnOk, replicate, []};
ghost use Rattle.pseudotree.specs.Rows.{pushed};

use dcop_base::{NoMemory, VarId, VarList};
use std::alloc::Global;

/// `count` empty rows.
pub(crate) fn empty_rows(alloc: Global, count: usize) -> Result<Vec<VarList>, NoMemory>
    ensures { IfOk result (λ rows. rows.items ≡ replicate count []) }
{
    let mut rows = Vec::with_capacity(alloc, count)?;
    for _ in 0..count {
        rows.push(VarList::new(alloc))?;
    }
    Ok(rows)
}

/// Adds a variable at the end of one of the rows.
pub(crate) fn push_at(rows: &mut [VarList], at: usize, var: VarId) -> Result<(), NoMemory>
    requires inside { at < length rows.old }
    ensures added { OnOk result (rows.new ≡ pushed at var rows.old) }
    ensures size { length rows.new ≡ length rows.old }
{
    rows[at].push(var)?;
    Ok(())
}
