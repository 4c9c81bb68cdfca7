//! What waits for cells when a round begins.

use agent_cells::Cell;

/// The work of a link on which messages without a table wait.
pub(crate) const MESSAGE_WORK: u64 = 1;

/// The work of a cell of a UTIL table: the receiver joins the table, and the joined table has many
/// cells for each of it.
const TABLE_CELL_WORK: u64 = 1_024;

/// The least work for which starting threads pays: that of 1,024 cells of tables. Links without
/// tables never have so much. Token agents pass on one token. ADOPT agents mainly answer each
/// other, and on several threads they may send more messages than the threads save.
const LEAST_WORK: u64 = 1_048_576;

/// What may wait for the cells of a round, and in how many of the parts in which workers would play
/// them. No clause speaks of it: it only says whether sharing the round pays.
#[derive(Clone, Copy, Debug, PartialEq, Eq)]
pub struct Waiting {
    /// The number of parts for which something may wait.
    parts: usize,
    /// The number of parts up to the last one of them.
    pub(crate) until: usize,
    /// How much work may wait for all cells.
    work: u64,
}

impl Waiting {
    /// Nothing waits.
    pub(crate) fn none() -> Self {
        Waiting {
            parts: 0,
            until: 0,
            work: 0,
        }
    }

    /// Adds the work that may wait for a cell of this part. Cells come in order.
    pub(crate) fn add(&mut self, part: usize, work: u64) {
        if work == 0 {
            return;
        }
        self.work = self.work.saturating_add(work);
        if part >= self.until {
            self.parts = self.parts.saturating_add(1);
            self.until = part.saturating_add(1);
        }
    }

    /// Whether sharing the round pays: enough work may wait, and in several parts.
    pub(crate) fn pays(&self) -> bool {
        self.parts > 1 && self.work >= LEAST_WORK
    }
}

/// The work of this many messages on a link from a cell. If its agent has made a UTIL table, one of
/// them may have that.
pub(crate) fn work_of(messages: u32, from: &Cell) -> u64 {
    if messages == 0 {
        return 0;
    }
    match from.table() {
        Some(table) => {
            let cells = table.cells.as_slice().len() as u64;
            cells.saturating_mul(TABLE_CELL_WORK).max(MESSAGE_WORK)
        }
        None => MESSAGE_WORK,
    }
}
