//! The bounds of all depths.

ghost use Rattle.std.specs.Prelude.{◌≡◌, ◌+◌, ◌-◌, ◌++◌, ◌<◌, ◌≤◌, min, not, length, IfOk};
ghost use Rattle.std.specs.List.{All, filter};
ghost use Rattle.dcop_base.specs.Limits.{joined_limit, variable_limit};
ghost use Rattle.dcop_base.specs.Faults.{cell_count};
ghost use Rattle.dcop_base.specs.Table.{has};
ghost use Rattle.shared_costs.specs.Tables.{AreDepths};
ghost use Rattle.bucket_bounds.specs.Bounds.{AreBucketBounds, kept_cells};
ghost use Rattle.bucket_bounds.specs.Exact.{AreExactUnparted};
ghost use Rattle.bucket_bounds.specs.Joining.{AreUncapped};
ghost use Rattle.bucket_bounds.specs.Made.{IsItem, IsBoundTable, AreMade};
ghost use Rattle.bucket_bounds.specs.MiniBuckets.{IsMiniBucket, AreMiniBuckets};
ghost use Rattle.bucket_bounds.specs.Parting.{IsPartedDuly, AreReplacedDuly};

use crate::bucket::BucketList;
use crate::making::{Made, bucket_with};
use dcop_base::{MAX_JOINED_CELLS, NoMemory, Table, TableList, VarId, stands_in};
use std::alloc::Global;

/// The bounds of all depths of these tables, over variables with these sizes. No joined table of
/// two or more tables has more cells than the limit. All bounds together keep at most `cells`
/// cells: bounds for which there is no room are replaced by their least cell.
///
/// # Errors
///
/// [`NoMemory`] if it runs out of memory.
pub fn bounds_of(
    alloc: Global,
    sizes: &[u16],
    depths: &[TableList],
    limit: u64,
    cells: u64,
) -> Result<BucketList, NoMemory>
    requires few { length sizes.now ≤ variable_limit }
    requires depths { AreDepths sizes.now depths.now }
    requires cells { length sizes.now ≤ cells }
    ensures bounds { IfOk result (AreBucketBounds sizes.now depths.now) }
    ensures kept { IfOk result (λ buckets. kept_cells buckets ≤ cells) }
    ensures buckets { IfOk result
        (AreMiniBuckets sizes.now (min limit joined_limit) cells 0) }
    ensures made { IfOk result (AreMade sizes.now 0) }
    ensures exact { IfOk result (AreExactUnparted sizes.now depths.now) }
    ensures parted { IfOk result (All (IsPartedDuly sizes.now (min limit joined_limit))) }
    ensures replaced { IfOk result
        (λ buckets. AreReplacedDuly sizes.now (cells - kept_cells buckets) 0 buckets) }
{
    let widest = limit.min(MAX_JOINED_CELLS);
    let mut room = cells - sizes.len() as u64;
    let mut last_first = Vec::new(alloc);
    let mut bounds = Vec::new(alloc);
    let mut place = sizes.len();
    while place > 0 {
        place -= 1;
        let var = VarId(place as u32);
        let tables = depths[place].as_slice();
        let made = next_bucket(alloc, sizes, var, tables, bounds.as_slice(), widest, room)?;
        bounds = next_bounds(alloc, bounds.as_slice(), var, made.bucket.sent.as_slice())?;
        room = made.room;
        last_first.push(made.bucket)?;
    }
    last_first.as_mut_slice().reverse();
    Ok(BucketList::from_vec(last_first))
}

/// The bucket of a variable with these tables, when these are the bounds of the next depth.
fn next_bucket(
    alloc: Global,
    sizes: &[u16],
    var: VarId,
    tables: &[Table],
    bounds: &[Table],
    widest: u64,
    room: u64,
) -> Result<Made, NoMemory>
    requires var { var < length sizes.now }
    requires tables { All (IsItem sizes.now var) tables.now }
    requires bounds { All (IsBoundTable sizes.now (var + 1)) bounds.now }
    requires capped { AreUncapped sizes.now
        (tables.now ++ filter (λ t. has t.scope var) bounds.now) }
    requires widest { widest ≤ joined_limit }
    ensures taken { IfOk result (λ made. (made.bucket.tables ≡ tables.now)
        × (made.bucket.came ≡ filter (λ t. has t.scope var) bounds.now)) }
    ensures mini { IfOk result (λ made. IsMiniBucket sizes.now widest var room made.bucket) }
    ensures room { IfOk result (λ made. cell_count made.bucket.sent + made.room ≡ room) }
    ensures parted { IfOk result (λ made. IsPartedDuly sizes.now widest made.bucket) }
{
    let tables = TableList::from_vec(clones_of(alloc, tables)?);
    let came = TableList::from_vec(naming(alloc, bounds, var)?);
    bucket_with(alloc, sizes, var, tables, came, widest, room)
}

/// The bounds of the depth of a variable: the bounds of the next depth that do not name it, and
/// those that its bucket sends.
fn next_bounds(
    alloc: Global,
    bounds: &[Table],
    var: VarId,
    sent: &[Table],
) -> Result<Vec<Table>, NoMemory>
    ensures { IfOk result
        (λ next. next.items ≡ filter (λ t. not (has t.scope var)) bounds.now ++ sent.now) }
{
    let mut next = others(alloc, bounds, var)?;
    for table in sent {
        next.push(table.clone()?)?;
    }
    Ok(next)
}

/// Clones of these tables.
fn clones_of(alloc: Global, tables: &[Table]) -> Result<Vec<Table>, NoMemory>
    ensures { IfOk result (λ clones. clones.items ≡ tables.now) }
{
    let mut clones = Vec::new(alloc);
    for table in tables {
        clones.push(table.clone()?)?;
    }
    Ok(clones)
}

/// Clones of the tables that name a variable.
fn naming(alloc: Global, tables: &[Table], var: VarId) -> Result<Vec<Table>, NoMemory>
    ensures { IfOk result (λ clones. clones.items ≡ filter (λ t. has t.scope var) tables.now) }
{
    let mut clones = Vec::new(alloc);
    for table in tables {
        if stands_in(table.scope.as_slice(), var) {
            clones.push(table.clone()?)?;
        }
    }
    Ok(clones)
}

/// Clones of the tables that do not name a variable.
fn others(alloc: Global, tables: &[Table], var: VarId) -> Result<Vec<Table>, NoMemory>
    ensures { IfOk result
        (λ clones. clones.items ≡ filter (λ t. not (has t.scope var)) tables.now) }
{
    let mut clones = Vec::new(alloc);
    for table in tables {
        if !stands_in(table.scope.as_slice(), var) {
            clones.push(table.clone()?)?;
        }
    }
    Ok(clones)
}
