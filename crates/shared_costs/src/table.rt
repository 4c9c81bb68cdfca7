//! Tables whose cells change.

ghost use Rattle.std.specs.Prelude.{◌≡◌, ◌*◌, ◌<◌, ◌≤◌, true, None, IfOk, length, map, slice_index};
ghost use Rattle.std.specs.List.{All};
ghost use Rattle.dcop_base.specs.Limits.{amount_limit};
ghost use Rattle.dcop_base.specs.Table.{CostTable, greatest, has, product, table_fault};
ghost use Rattle.cost_table.specs.Cells.{place_in};
ghost use Rattle.shared_costs.specs.Runs.{IsShifted};
ghost use Rattle.shared_costs.specs.Moves.{AreLows, IsMoved, AreLowsAt, cells_behind};
ghost use Rattle.shared_costs.specs.Scales.{IsScaled};

use crate::runs::{least_from, lower, shift};
use cost_table::place_in;
use dcop_base::{CAP, CellList, NoMemory, SizeList, Table, VarId, VarList, product_of, stands_in};
use std::alloc::Global;
use std::marker::Model;

/// A table whose cells change while costs are shared. Contracts see it as that table.
#[derive(Debug, Drop)]
pub struct SharedTable {
    scope: VarList,
    sizes: SizeList,
    cells: Vec<u64>,
}

impl Model for SharedTable {
    ghost Value = { CostTable };

    ghost view = { λ t. record { scope = t.scope; sizes = t.sizes; cells = t.cells.items } };

    ghost invariant = { λ t. table_fault t.scope t.sizes t.cells.items ≡ None };
}

impl SharedTable {
    /// The same table, with a copy of its cells.
    ///
    /// # Errors
    ///
    /// [`NoMemory`] if it runs out of memory.
    pub fn of(alloc: Global, table: &Table) -> Result<SharedTable, NoMemory>
        ensures { IfOk result (λ t. t ≡ table.now) }
    {
        Ok(SharedTable {
            scope: table.scope.clone()?,
            sizes: table.sizes.clone()?,
            cells: Vec::from_slice(alloc, table.cells.as_slice())?,
        })
    }

    /// The table, with its memory.
    pub fn table(self) -> Table
        ensures { result ≡ self }
    {
        Table {
            scope: self.scope,
            sizes: self.sizes,
            cells: CellList::from_vec(self.cells),
        }
    }

    /// The table with each cell multiplied by a scale.
    pub(crate) fn scaled(alloc: Global, table: &Table, scale: u64) -> Result<SharedTable, NoMemory>
        requires { scale * greatest table.now.cells ≤ amount_limit }
        ensures { IfOk result (IsScaled scale table.now) }
    {
        Ok(SharedTable {
            scope: table.scope.clone()?,
            sizes: table.sizes.clone()?,
            cells: scaled_cells(alloc, table.cells.as_slice(), scale)?,
        })
    }

    /// The table. Its clones share its cells.
    pub(crate) fn shared(self, alloc: Global) -> Result<Table, NoMemory>
        ensures { IfOk result (λ t. t ≡ self) }
    {
        Ok(Table {
            scope: self.scope,
            sizes: self.sizes,
            cells: CellList::shared(alloc, self.cells)?,
        })
    }

    /// Its variables.
    pub(crate) fn scope(&self) -> &[VarId]
        ensures { result.now ≡ self.now.scope }
    {
        self.scope.as_slice()
    }

    /// Whether it names the variable.
    pub(crate) fn names(&self, var: VarId) -> bool
        ensures { result ≡ has self.now.scope var }
    {
        stands_in(self.scope.as_slice(), var)
    }

    /// Its least cell.
    pub(crate) fn least(&self) -> u64
        ensures { All (λ c. result ≤ c) self.now.cells }
    {
        least_from(CAP, self.cells.as_slice())
    }

    /// Lowers these amounts, one for each value of a variable that the table names. Each becomes
    /// the least cell at its value if that cell is less.
    pub(crate) fn lower(&self, var: VarId, lows: &mut [u64])
        requires names { has self.now.scope var ≡ true }
        requires many { length lows.old ≡ slice_index self.now.sizes (place_in self.now.scope var) }
        requires small { All (λ n. n ≤ amount_limit) lows.old }
        ensures { AreLows self.now var lows.new }
    {
        lower_of(
            lows,
            self.scope.as_slice(),
            self.sizes.as_slice(),
            self.cells.as_slice(),
            var,
        );
    }

    /// Takes from each cell the amount in `lows` for its value of the variable, and adds the amount
    /// in `gains`. A sum above [`CAP`] becomes [`CAP`].
    pub(crate) fn shift(&mut self, var: VarId, lows: &[u64], gains: &[u64])
        requires names { has self.old.scope var ≡ true }
        requires many { length gains.now ≡ length lows.now }
        requires lows { AreLows self.old var lows.now }
        requires small { All (λ g. g ≤ amount_limit) gains.now }
        ensures { IsMoved var lows.now gains.now self.old self.new }
    {
        shift_of(
            self.cells.as_mut_slice(),
            self.scope.as_slice(),
            self.sizes.as_slice(),
            var,
            lows,
            gains,
        );
    }
}

/// These cells, each multiplied by a scale.
fn scaled_cells(alloc: Global, cells: &[u64], scale: u64) -> Result<Vec<u64>, NoMemory>
    requires { scale * greatest cells.now ≤ amount_limit }
    ensures { IfOk result (λ scaled. scaled.items ≡ map (λ c. scale * c) cells.now) }
{
    let mut scaled = Vec::with_capacity(alloc, cells.len())?;
    for cell in cells {
        scaled.push(scale * *cell)?;
    }
    Ok(scaled)
}

/// [`SharedTable::lower`] for the table of these parts.
fn lower_of(lows: &mut [u64], scope: &[VarId], sizes: &[u16], cells: &[u64], var: VarId)
    requires whole { table_fault scope.now sizes.now cells.now ≡ None }
    requires names { has scope.now var ≡ true }
    requires many { length lows.old ≡ slice_index sizes.now (place_in scope.now var) }
    requires small { All (λ n. n ≤ amount_limit) lows.old }
    ensures { AreLowsAt sizes.now cells.now (place_in scope.now var) lows.new }
{
    lower_at(lows, sizes, cells, place_in(scope, var));
}

/// Lowers these amounts, one for each value of the variable at this place, in a table with these
/// sizes and cells. Each becomes the least cell at its value if that cell is less.
fn lower_at(lows: &mut [u64], sizes: &[u16], cells: &[u64], place: usize)
    requires inside { place < length sizes.now }
    requires full { length cells.now ≡ product sizes.now }
    requires some { All (λ s. 1 ≤ s) sizes.now }
    requires many { length lows.old ≡ slice_index sizes.now place }
    requires small { All (λ n. n ≤ amount_limit) lows.old }
    ensures { AreLowsAt sizes.now cells.now place lows.new }
{
    let (before, _) = sizes.split_at(place);
    let (_, behind) = sizes.split_at(place + 1);
    let blocks = product_of(before);
    let inner = product_of(behind);
    lower(lows, cells, blocks, inner);
}

/// [`SharedTable::shift`] for the table of these parts.
fn shift_of(
    cells: &mut [u64],
    scope: &[VarId],
    sizes: &[u16],
    var: VarId,
    lows: &[u64],
    gains: &[u64],
)
    requires whole { table_fault scope.now sizes.now cells.old ≡ None }
    requires names { has scope.now var ≡ true }
    requires many { length gains.now ≡ length lows.now }
    requires lows { AreLowsAt sizes.now cells.old (place_in scope.now var) lows.now }
    requires small { All (λ g. g ≤ amount_limit) gains.now }
    ensures whole { table_fault scope.now sizes.now cells.new ≡ None }
    ensures moved { IsMoved var lows.now gains.now
        (record { scope = scope.now; sizes = sizes.now; cells = cells.old })
        (record { scope = scope.now; sizes = sizes.now; cells = cells.new }) }
{
    let place = place_in(scope, var);
    shift_at(cells, sizes, place, lows, gains);
}

/// Takes from each cell of a table with these sizes the amount in `lows` for its value of the
/// variable at this place, and adds the amount in `gains`.
fn shift_at(cells: &mut [u64], sizes: &[u16], place: usize, lows: &[u64], gains: &[u64])
    requires inside { place < length sizes.now }
    requires full { length cells.old ≡ product sizes.now }
    requires some { All (λ s. 1 ≤ s) sizes.now }
    requires cells { All (λ c. c ≤ amount_limit) cells.old }
    requires many { length gains.now ≡ length lows.now }
    requires lows { AreLowsAt sizes.now cells.old place lows.now }
    requires small { All (λ g. g ≤ amount_limit) gains.now }
    ensures { IsShifted (cells_behind sizes.now place) lows.now gains.now cells.old cells.new }
{
    let (before, _) = sizes.split_at(place);
    let (_, behind) = sizes.split_at(place + 1);
    let blocks = product_of(before);
    let inner = product_of(behind);
    shift(cells, lows, gains, blocks, inner);
}
