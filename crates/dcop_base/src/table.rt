//! Cost tables.

ghost use Rattle.std.specs.Prelude.{◌≡◌, ◌<◌, ◌≤◌, length, None, MatchResult, nat_lt};
ghost use Rattle.std.specs.List.{list_any, All};
ghost use Rattle.dcop_base.specs.Limits.{amount_limit};
ghost use Rattle.dcop_base.specs.Table.{CostTable, product, table_fault, IsTableOfParts, AreWithin, values_at, cell_at, cell_place};

use crate::cells::CellList;
use crate::limit::CAP;
use crate::number::{Val, VarId};
use crate::place::place_of;
use crate::scope::repeats;
use crate::sequence::{SizeList, VarList};
use crate::size::{have_zero, product_of};
use std::alloc::AllocError;
use std::marker::Model;

/// Why a table is refused.
#[derive(Clone, Copy, Debug, PartialEq, Eq)]
pub enum TableFault {
    /// The scope names a variable twice.
    Repeat,
    /// The number of sizes is not that of the variables, or a size is 0.
    Sizes,
    /// The number of cells is not the product of the sizes.
    CellCount,
    /// A cell is above [`CAP`].
    CellTooLarge,
}

/// A cost table: one cell for each choice of values of its variables. The last variable changes
/// fastest.
///
/// The variables are distinct, and each has a size of at least 1. There are as many cells as the
/// product of the sizes, which is 1 for an empty scope. Each cell is at most [`CAP`].
#[derive(Debug, Drop)]
pub struct Table {
    pub scope: VarList,
    pub sizes: SizeList,
    pub cells: CellList,
}

impl Model for Table {
    ghost Value = { CostTable };

    ghost view = { λ t. record { scope = t.scope; sizes = t.sizes; cells = t.cells } };

    ghost invariant = { λ t. table_fault t.scope t.sizes t.cells ≡ None };
}

impl Table {
    /// The table of this scope with these sizes and cells. It keeps their memory and allocates
    /// nothing.
    ///
    /// # Errors
    ///
    /// The first of the faults of [`TableFault`], in the order of their declaration. The lists are
    /// dropped in that case.
    pub fn new(scope: VarList, sizes: SizeList, cells: CellList) -> Result<Table, TableFault>
        ensures { MatchResult result
            (λ t. (table_fault scope sizes cells ≡ None) × IsTableOfParts scope sizes cells t)
            (λ fault. table_fault scope sizes cells ≡ Some fault) }
    {
        match fault_of(scope.as_slice(), sizes.as_slice(), cells.as_slice()) {
            Some(fault) => Err(fault),
            None => Ok(Table {
                scope,
                sizes,
                cells,
            }),
        }
    }

    /// The cell at the values that an assignment gives to the scope's variables. `values` is in the
    /// order of the variables' numbers, and may end after the greatest variable of the scope.
    pub fn eval(&self, values: &[Val]) -> u64
        requires entries { All (λ v. v < length values.now) self.now.scope }
        requires sizes { AreWithin self.now.sizes (values_at self.now.scope values.now) }
        ensures cell { result ≡ cell_at self.now values.now }
        ensures within { result ≤ amount_limit }
    {
        let scope = self.scope.as_slice();
        let sizes = self.sizes.as_slice();
        let cells = self.cells.as_slice();
        cells[place_at(scope, sizes, values)]
    }
}

impl Clone for Table {
    ghost is_clone = { λ table copy. copy ≡ table };

    fn clone(&self) -> Result<Self, AllocError> {
        Ok(Table {
            scope: self.scope.clone()?,
            sizes: self.sizes.clone()?,
            cells: self.cells.clone()?,
        })
    }
}

/// The first fault of a table.
fn fault_of(scope: &[VarId], sizes: &[u16], cells: &[u64]) -> Option<TableFault>
    ensures { result ≡ table_fault scope.now sizes.now cells.now }
{
    if repeats(scope) {
        return Some(TableFault::Repeat);
    }
    if sizes.len() != scope.len() || have_zero(sizes) {
        return Some(TableFault::Sizes);
    }
    if cells.len() != product_of(sizes) {
        return Some(TableFault::CellCount);
    }
    if exceed_cap(cells) {
        return Some(TableFault::CellTooLarge);
    }
    None
}

/// Whether a cell is above [`CAP`].
fn exceed_cap(cells: &[u64]) -> bool
    ensures { result ≡ list_any (λ c. nat_lt amount_limit c) cells.now }
{
    cells.iter().any(|cell| *cell > CAP)
}

/// The place of the cell at the values of the scope's variables.
fn place_at(scope: &[VarId], sizes: &[u16], values: &[Val]) -> usize
    requires entries { All (λ v. v < length values.now) scope.now }
    requires sizes { AreWithin sizes.now (values_at scope.now values.now) }
    requires few { product sizes.now ≤ usize.MAX }
    ensures { result ≡ cell_place sizes.now (values_at scope.now values.now) }
{
    place_of(scope.len(), |k| {
        let var = scope[k];
        (sizes[k], values[var.0 as usize])
    })
}
