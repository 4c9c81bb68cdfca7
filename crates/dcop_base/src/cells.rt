//! Cells of cost tables.

ghost use Rattle.std.specs.Prelude.{◌≡◌, IfOk};

use crate::memory::NoMemory;
use std::alloc::{AllocError, Global};
use std::marker::Model;
use std::sync::Arc;

/// Cells of cost tables, which contracts see as the list of their costs. They are in a `Vec` that
/// the list owns or shares with its clones.
#[derive(Debug, Drop)]
pub struct CellList {
    block: Block,
}

/// Where a list holds its cells.
#[derive(Debug, Drop)]
pub(crate) enum Block {
    Own(Vec<u64>),
    Shared(Arc<Vec<u64>, Global>),
}

impl Model for CellList {
    ghost use Rattle.std.specs.Prelude.{List, ℕ};

    ghost Value = { List ℕ };

    ghost use Rattle.dcop_base.specs.Cells.{cells_in};

    ghost view = { λ c. cells_in c.block };
}

impl CellList {
    /// The list of these cells, which no other list shares. It keeps their memory and allocates
    /// nothing.
    pub fn from_vec(cells: Vec<u64>) -> Self
        ensures { result ≡ cells.items }
    {
        CellList {
            block: Block::Own(cells),
        }
    }

    /// The list of these cells, whose clones share its memory.
    ///
    /// # Errors
    ///
    /// [`NoMemory`] if memory runs out. The cells are dropped in that case.
    pub fn shared(alloc: Global, cells: Vec<u64>) -> Result<Self, NoMemory>
        ensures { IfOk result (λ list. list ≡ cells.items) }
    {
        Ok(CellList {
            block: Block::Shared(Arc::new(alloc, cells)?),
        })
    }

    /// The cells, in order.
    pub fn as_slice(&self) -> &[u64]
        ensures { result.now ≡ self.now }
    {
        match &self.block {
            Block::Own(cells) => cells.as_slice(),
            Block::Shared(cells) => cells.as_slice(),
        }
    }
}

impl Clone for CellList {
    ghost is_clone = { λ list copy. copy ≡ list };

    /// A list of the same cells. If their memory is shared, the clone shares it too.
    fn clone(&self) -> Result<Self, AllocError> {
        let block = match &self.block {
            Block::Own(cells) => Block::Own(cells.clone()?),
            Block::Shared(cells) => Block::Shared(Arc::try_clone(cells)?),
        };
        Ok(CellList { block })
    }
}
