//! How a bucket is made.

ghost use Rattle.std.specs.Prelude.{◌≡◌, ◌+◌, ◌++◌, ◌<◌, ◌≤◌, true, length, IfOk};
ghost use Rattle.std.specs.List.{All};
ghost use Rattle.dcop_base.specs.Limits.{joined_limit};
ghost use Rattle.dcop_base.specs.Faults.{cell_count};
ghost use Rattle.dcop_base.specs.Table.{has};
ghost use Rattle.bucket_bounds.specs.Made.{IsItem};
ghost use Rattle.bucket_bounds.specs.MiniBuckets.{IsMiniBucket, IsSentOf};
ghost use Rattle.bucket_bounds.specs.Parting.{AreTooWide, IsPartedDuly};
ghost use Rattle.bucket_bounds.specs.Joining.{AreUncapped};
ghost use Rattle.bucket_bounds.specs.Parts.{AreGroupsJoined};

use crate::bucket::Bucket;
use crate::by_cells::put_by_cells;
use crate::group::groups_of;
use crate::joining::joined_tables;
use crate::keeping::{Kept, kept_of};
use crate::projecting::projections_of;
use crate::sharing::shared_tables;
use dcop_base::{NoMemory, Table, TableList, VarId};
use std::alloc::Global;

/// A bucket that was made.
#[derive(Drop)]
pub(crate) struct Made {
    /// The bucket.
    pub bucket: Bucket,
    /// The number of cells that the bounds of other buckets may still keep.
    pub room: u64,
}

/// The bucket of a variable with these tables, to which these bounds come.
pub(crate) fn bucket_with(
    alloc: Global,
    sizes: &[u16],
    var: VarId,
    tables: TableList,
    came: TableList,
    limit: u64,
    room: u64,
) -> Result<Made, NoMemory>
    requires var { var < length sizes.now }
    requires tables { All (IsItem sizes.now var) tables }
    requires came { All (IsItem sizes.now var) came }
    requires capped { AreUncapped sizes.now (tables ++ came) }
    requires limit { limit ≤ joined_limit }
    ensures taken { IfOk result
        (λ made. (made.bucket.tables ≡ tables) × (made.bucket.came ≡ came)) }
    ensures mini { IfOk result (λ made. IsMiniBucket sizes.now limit var room made.bucket) }
    ensures room { IfOk result (λ made. cell_count made.bucket.sent + made.room ≡ room) }
    ensures parted { IfOk result (λ made. IsPartedDuly sizes.now limit made.bucket) }
{
    let parts = parts_of(alloc, sizes, var, tables.as_slice(), came.as_slice(), limit)?;
    let kept = sent_of(alloc, var, parts.as_slice(), room)?;
    Ok(Made {
        bucket: Bucket {
            tables,
            came,
            sent: TableList::from_vec(kept.sent),
            fixed: kept.fixed,
            groups: parts.len() as u64,
            replaced: kept.replaced,
        },
        room: kept.room,
    })
}

/// The joined tables of the groups into which tables and bounds are parted, with the variable
/// shared among them.
fn parts_of(
    alloc: Global,
    sizes: &[u16],
    var: VarId,
    tables: &[Table],
    came: &[Table],
    limit: u64,
) -> Result<Vec<Table>, NoMemory>
    requires var { var < length sizes.now }
    requires tables { All (IsItem sizes.now var) tables.now }
    requires came { All (IsItem sizes.now var) came.now }
    requires capped { AreUncapped sizes.now (tables.now ++ came.now) }
    requires limit { limit ≤ joined_limit }
    ensures parts { IfOk result
        (λ parts. AreGroupsJoined sizes.now limit var (tables.now ++ came.now) parts.items) }
    ensures parted { IfOk result
        (λ parts. 2 ≤ length parts.items → AreTooWide sizes.now limit (tables.now ++ came.now)) }
{
    let mut items = Vec::new(alloc);
    put_by_cells(&mut items, tables)?;
    put_by_cells(&mut items, came)?;
    let groups = groups_of(alloc, sizes, items.as_slice(), limit)?;
    let joined = joined_tables(alloc, sizes, groups.as_slice())?;
    shared_tables(alloc, sizes, joined, var)
}

/// What is sent from the parts of the bucket of a variable: their projections. If there is not room
/// for all, the smallest are kept.
fn sent_of(alloc: Global, var: VarId, parts: &[Table], room: u64) -> Result<Kept, NoMemory>
    requires { All (λ t. has t.scope var ≡ true) parts.now }
    ensures sent { IfOk result
        (λ kept. IsSentOf var room parts.now kept.sent.items kept.fixed kept.replaced) }
    ensures room { IfOk result (λ kept. cell_count kept.sent.items + kept.room ≡ room) }
{
    let projections = projections_of(alloc, parts, var)?;
    let mut smallest_first = Vec::new(alloc);
    put_by_cells(&mut smallest_first, projections.as_slice())?;
    smallest_first.as_mut_slice().reverse();
    kept_of(alloc, smallest_first.as_slice(), room)
}
