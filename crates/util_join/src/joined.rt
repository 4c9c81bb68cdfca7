//! Joined tables.

ghost use Rattle.std.specs.Prelude.{◌≡◌, ◌≤◌, length, min, false, None};
ghost use Rattle.std.specs.List.{All};
ghost use Rattle.dcop_base.specs.Table.{CostTable, has_repeat, product, table_fault};
ghost use Rattle.util_join.specs.Join.{MakesJoined, LiesIn, IsSum};

use crate::window::add_cells;
use cost_table::cells_of;
use dcop_base::{CellList, MAX_JOINED_CELLS, NoMemory, SizeList, Table, VarList};
use std::alloc::{AllocError, Global};
use std::marker::Model;

/// Why [`Joined::new`] refuses to make a table.
#[derive(Clone, Copy, Debug, PartialEq, Eq)]
pub enum JoinFault {
    /// The table would have more than [`MAX_JOINED_CELLS`] cells. `cells` is their number, or
    /// [`u64::MAX`] if there are more.
    TooWide { cells: u64 },
    /// Memory ran out.
    NoMemory,
}

impl From<AllocError> for JoinFault {
    ghost use Rattle.std.specs.Prelude.{◌≡◌};
    ghost use Rattle.util_join.specs.declared.joined.JoinFault.TheVariants.{NoMemory as no_memory};

    ghost from_gives = { λ _ e. e ≡ no_memory };

    fn from(_refused: AllocError) -> Self {
        JoinFault::NoMemory
    }
}

/// A joined table that is being built: a table over distinct variables, to which tables over some
/// of these variables are added. Contracts see it as a cost table.
#[derive(Debug, Drop)]
pub struct Joined {
    over: VarList,
    sizes: SizeList,
    cells: Vec<u64>,
}

impl Model for Joined {
    ghost Value = { CostTable };

    ghost view = { λ j. record { scope = j.over; sizes = j.sizes; cells = j.cells.items } };

    ghost invariant = { λ j. table_fault j.over j.sizes j.cells.items ≡ None };
}

impl Joined {
    /// A table of zeros over these variables. Each has the size at the same place of `sizes`.
    ///
    /// # Errors
    ///
    /// [`JoinFault::TooWide`] exactly above [`MAX_JOINED_CELLS`] cells; [`JoinFault::NoMemory`] if
    /// memory runs out. The lists are dropped in both cases.
    pub fn new(alloc: Global, over: VarList, sizes: SizeList) -> Result<Joined, JoinFault>
        requires distinct { has_repeat over ≡ false }
        requires sized { length sizes ≡ length over }
        requires positive { All (λ s. 1 ≤ s) sizes }
        ensures { MakesJoined over sizes result }
    {
        let cells = count_of(sizes.as_slice());
        if cells > MAX_JOINED_CELLS {
            return Err(JoinFault::TooWide { cells });
        }
        let cells = vec![in alloc; 0; cells as usize]?;
        Ok(Joined { over, sizes, cells })
    }

    /// Adds a table: each cell gains the table's cell at the same values. A sum above
    /// [`CAP`](dcop_base::CAP) becomes `CAP`.
    pub fn add(&mut self, table: &Table)
        requires { LiesIn self.old.scope self.old.sizes table.now }
        ensures { IsSum self.old table.now self.new }
    {
        add_cells(
            self.cells.as_mut_slice(),
            self.over.as_slice(),
            self.sizes.as_slice(),
            table,
        );
    }

    /// The table. It keeps the memory of the cells.
    pub fn table(self) -> Table
        ensures { result ≡ self }
    {
        Table {
            scope: self.over,
            sizes: self.sizes,
            cells: CellList::from_vec(self.cells),
        }
    }
}

/// The number of cells of a table of these sizes, or [`u64::MAX`] if there are more.
fn count_of(sizes: &[u16]) -> u64
    ensures { result ≡ min (product sizes.now) u64.MAX }
{
    cells_of(sizes, u64::MAX).unwrap_or(u64::MAX)
}
