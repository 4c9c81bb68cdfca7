//! Rounds of sharing over all variables.

ghost use Rattle.std.specs.Prelude.{◌≡◌, ℕ, ◌<◌, ◌^◌, length, IfOk, OnOk};
ghost use Rattle.std.specs.List.{All};
ghost use Rattle.shared_costs.specs.Sharing.{IsSharing};
ghost use Rattle.shared_costs.specs.Tables.{AreTablesOver};

use crate::sharing::share;
use crate::table::SharedTable;
use dcop_base::{NoMemory, VarId};
use std::alloc::Global;

/// The most rounds of sharing.
const MAX_ROUNDS: usize = 100;

/// The number of rounds after which their gain is measured.
const ROUNDS_AT_A_TIME: usize = 8;

/// Shares all variables among the tables in at most [`MAX_ROUNDS`] rounds. It stops when
/// [`ROUNDS_AT_A_TIME`] rounds raised the sum of the tables' least cells by less than the scale.
///
/// # Errors
///
/// [`NoMemory`] if it runs out of memory. The tables are of no use then.
pub(crate) fn share_all(
    alloc: Global,
    sizes: &[u16],
    tables: &mut [SharedTable],
    scale: u64,
) -> Result<(), NoMemory>
    requires tables { AreTablesOver sizes.now tables.old }
    requires few { length tables.old < 2 ^ 32 }
    requires variables { length sizes.now < 2 ^ 32 }
    ensures { OnOk result (IsSharing sizes.now tables.old tables.new) }
{
    let places = places_of(alloc, sizes.len(), tables)?;
    let mut least = least_sum(tables);
    for round in 0..MAX_ROUNDS {
        share_round(alloc, sizes, tables, places.as_slice(), round)?;
        if (round + 1) % ROUNDS_AT_A_TIME == 0 {
            let more = least_sum(tables);
            if more < least.saturating_add(scale) {
                break;
            }
            least = more;
        }
    }
    Ok(())
}

/// Shares each variable once, in order. For each variable, `places` has the places of the tables
/// that name it.
fn share_round(
    alloc: Global,
    sizes: &[u16],
    tables: &mut [SharedTable],
    places: &[Vec<u32>],
    round: usize,
) -> Result<(), NoMemory>
    requires tables { AreTablesOver sizes.now tables.old }
    requires places { All (λ list. All (λ k. k < length tables.old) list.items) places.now }
    requires many { length places.now ≡ length sizes.now }
    requires variables { length sizes.now < 2 ^ 32 }
    ensures { OnOk result (IsSharing sizes.now tables.old tables.new) }
{
    for (var, list) in places.iter().enumerate() {
        share(
            alloc,
            sizes,
            tables,
            list.as_slice(),
            VarId(var as u32),
            round,
        )?;
    }
    Ok(())
}

/// For each variable, the places of the tables that name it, in ascending order.
fn places_of(
    alloc: Global,
    variables: usize,
    tables: &[SharedTable],
) -> Result<Vec<Vec<u32>>, NoMemory>
    requires within { All (λ t. All (λ v. v < variables) t.scope) tables.now }
    requires few { length tables.now < 2 ^ 32 }
    ensures { IfOk result (λ lists. (length lists.items ≡ variables)
        × All (λ list. All (λ k. k < length tables.now) list.items) lists.items) }
{
    let mut lists = Vec::with_capacity(alloc, variables)?;
    for _ in 0..variables {
        lists.push(Vec::new(alloc))?;
    }
    for (place, table) in tables.iter().enumerate() {
        push_place(lists.as_mut_slice(), table.scope(), place as u32)?;
    }
    Ok(lists)
}

/// Appends a place to the lists of these variables.
fn push_place(lists: &mut [Vec<u32>], scope: &[VarId], place: u32) -> Result<(), NoMemory>
    requires { All (λ v. v < length lists.old) scope.now }
    ensures { OnOk result ((count : ℕ) → place < count
        → All (λ list. All (λ k. k < count) list.items) lists.old
        → All (λ list. All (λ k. k < count) list.items) lists.new) }
{
    for var in scope {
        lists[var.0 as usize].push(place)?;
    }
    Ok(())
}

/// The sum of the tables' least cells, or `u64::MAX` if it is more.
fn least_sum(tables: &[SharedTable]) -> u64 {
    let mut sum: u64 = 0;
    for table in tables {
        sum = sum.saturating_add(table.least());
    }
    sum
}
