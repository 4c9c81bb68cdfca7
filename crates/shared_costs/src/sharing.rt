//! Costs that are shared among the tables that name one variable.

ghost use Rattle.std.specs.Prelude.{◌≡◌, ◌++◌, ◌*◌, ◌<◌, ◌≤◌, true, length, OnOk, IfOk, slice_index};
ghost use Rattle.std.specs.List.{All};
ghost use Rattle.dcop_base.specs.Limits.{amount_limit};
ghost use Rattle.dcop_base.specs.Table.{has};
ghost use Rattle.cost_table.specs.Cells.{place_in};
ghost use Rattle.shared_costs.specs.Moves.{AreLows};
ghost use Rattle.shared_costs.specs.Rows.{AreNaming, AreLowRows, ArePotOf, IsParting};
ghost use Rattle.shared_costs.specs.Sharing.{IsShare, IsSharing};
ghost use Rattle.shared_costs.specs.Tables.{AreTablesOver, IsTableOver};

use crate::table::SharedTable;
use dcop_base::{CAP, NoMemory, VarId};
use std::alloc::Global;
use util_kernel::add_lanes;

/// Takes from each of these tables, for each value of a variable, its least cell there, and gives
/// each an equal part of what was taken in all. The remainder of the division goes to other tables
/// in another turn.
///
/// A place is skipped if its table does not name the variable, or if it is not greater than the
/// places before it. The cells of the tables are read twice.
///
/// # Errors
///
/// [`NoMemory`] if it runs out of memory. The tables are of no use then.
pub fn share(
    alloc: Global,
    sizes: &[u16],
    tables: &mut [SharedTable],
    places: &[u32],
    var: VarId,
    turn: usize,
) -> Result<(), NoMemory>
    requires tables { AreTablesOver sizes.now tables.old }
    requires places { All (λ k. k < length tables.old) places.now }
    requires var { var < length sizes.now }
    ensures share { OnOk result (IsShare sizes.now var tables.old tables.new) }
    ensures sharing { OnOk result (IsSharing sizes.now tables.old tables.new) }
{
    let places = naming_places(alloc, tables, places, var)?;
    let rows = low_rows(alloc, sizes, tables, places.as_slice(), var)?;
    let size = usize::from(sizes[var.0 as usize]);
    let mut pot = pot_of(alloc, rows.as_slice(), size, places.len())?;
    let mut parts = vec![in alloc; 0; size]?;
    let lows = Lows { places, rows };
    give(
        sizes,
        tables,
        var,
        &lows,
        pot.as_mut_slice(),
        parts.as_mut_slice(),
        turn,
    );
    Ok(())
}

/// Ascending places of tables that name a variable, and a row for each of these tables: for each
/// value of the variable an amount that is at most each of the table's cells there.
#[derive(Drop)]
struct Lows {
    places: Vec<u32>,
    rows: Vec<u64>,
}

/// The places whose table names the variable and that are greater than the places before them.
fn naming_places(
    alloc: Global,
    tables: &[SharedTable],
    places: &[u32],
    var: VarId,
) -> Result<Vec<u32>, NoMemory>
    requires { All (λ k. k < length tables.now) places.now }
    ensures { IfOk result (λ naming. AreNaming tables.now var naming.items) }
{
    let mut naming = Vec::with_capacity(alloc, places.len())?;
    let mut next = 0;
    for place in places {
        let at = *place as usize;
        if at >= next && tables[at].names(var) {
            naming.push(*place)?;
            next = at + 1;
        }
    }
    Ok(naming)
}

/// For each of the tables at these places, its least cell at each value of the variable.
fn low_rows(
    alloc: Global,
    sizes: &[u16],
    tables: &[SharedTable],
    places: &[u32],
    var: VarId,
) -> Result<Vec<u64>, NoMemory>
    requires each { All (IsTableOver sizes.now) tables.now }
    requires naming { AreNaming tables.now var places.now }
    requires var { var < length sizes.now }
    ensures { IfOk result (λ rows. AreLowRows tables.now var (slice_index sizes.now var)
        places.now (length places.now) rows.items) }
{
    let size = usize::from(sizes[var.0 as usize]);
    let mut rows = Vec::new(alloc);
    let mut lows = vec![in alloc; CAP; size]?;
    for place in places {
        append_lows(
            &mut rows,
            &tables[*place as usize],
            var,
            lows.as_mut_slice(),
        )?;
    }
    Ok(rows)
}

/// Appends the least cell of a table at each value of the variable.
fn append_lows(
    rows: &mut Vec<u64>,
    table: &SharedTable,
    var: VarId,
    lows: &mut [u64],
) -> Result<(), NoMemory>
    requires names { has table.now.scope var ≡ true }
    requires many { length lows.old ≡ slice_index table.now.sizes (place_in table.now.scope var) }
    ensures row { OnOk result (rows.new.items ≡ rows.old.items ++ lows.new) }
    ensures lows { AreLows table.now var lows.new }
{
    lows.fill(CAP);
    table.lower(var, lows);
    Ok(rows.extend_from_slice(lows)?)
}

/// The sums of `count` rows, place by place. A sum above [`CAP`] becomes [`CAP`].
fn pot_of(alloc: Global, rows: &[u64], size: usize, count: usize) -> Result<Vec<u64>, NoMemory>
    requires full { length rows.now ≡ count * size }
    requires small { All (λ n. n ≤ amount_limit) rows.now }
    ensures { IfOk result (λ pot. ArePotOf rows.now size count pot.items) }
{
    let mut pot = vec![in alloc; 0; size]?;
    add_rows(pot.as_mut_slice(), rows, count);
    Ok(pot)
}

/// Adds `count` rows to zeros. A sum above [`CAP`] becomes [`CAP`].
fn add_rows(pot: &mut [u64], rows: &[u64], count: usize)
    requires full { length rows.now ≡ count * length pot.old }
    requires small { All (λ n. n ≤ amount_limit) rows.now }
    requires zeros { All (λ n. n ≡ 0) pot.old }
    ensures { ArePotOf rows.now (length pot.old) count pot.new }
{
    let size = pot.len();
    for j in 0..count {
        add_lanes(pot, &rows[j * size..j * size + size]);
    }
}

/// Takes from each of the tables its amounts, and gives it a part of the pot, which holds the sums
/// of all of them. For each value of the variable, the last table gets what is left of the pot.
fn give(
    sizes: &[u16],
    tables: &mut [SharedTable],
    var: VarId,
    lows: &Lows,
    pot: &mut [u64],
    parts: &mut [u64],
    turn: usize,
)
    requires tables { AreTablesOver sizes.now tables.old }
    requires var { var < length sizes.now }
    requires naming { AreNaming tables.old var lows.now.places.items }
    requires rows { AreLowRows tables.old var (slice_index sizes.now var) lows.now.places.items
        (length lows.now.places.items) lows.now.rows.items }
    requires pot { ArePotOf lows.now.rows.items (slice_index sizes.now var)
        (length lows.now.places.items) pot.old }
    requires parts { length parts.old ≡ slice_index sizes.now var }
    ensures { IsShare sizes.now var tables.old tables.new }
{
    let places = lows.places.as_slice();
    let rows = lows.rows.as_slice();
    let size = pot.len();
    for (j, place) in places.iter().enumerate() {
        let left = places.len() - j;
        part(pot, parts, left, turn % left);
        tables[*place as usize].shift(var, &rows[j * size..j * size + size], parts);
    }
}

/// Takes from each amount the part for one of `left` takers. The part is rounded up if the division
/// leaves at least `left - round`, and else down.
fn part(pot: &mut [u64], parts: &mut [u64], left: usize, round: usize)
    requires some { 1 ≤ left }
    requires few { left ≤ amount_limit }
    requires round { round < left }
    requires equal { length parts.old ≡ length pot.old }
    requires small { All (λ n. n ≤ amount_limit) pot.old }
    ensures parting { IsParting left pot.old pot.new parts.new }
    ensures pot { All (λ n. n ≤ amount_limit) pot.new }
    ensures parts { All (λ n. n ≤ amount_limit) parts.new }
{
    for a in 0..pot.len() {
        let taken = (pot[a] + round as u64) / left as u64;
        parts[a] = taken;
        pot[a] -= taken;
    }
}
