//! The cells for which something may wait.

ghost use Rattle.std.specs.Prelude.{◌≡◌, ◌≢◌, ◌≤◌, ◌<◌, ℕ, length, false, IfSome, MatchOption, Some, slice_get, slice_index_or};
ghost use Rattle.dcop_base.specs.Limits.{variable_limit};
ghost use Rattle.worker_laws.specs.Cells.{peers};
ghost use Rattle.agent_cells.specs.State.{state_of};
ghost use Rattle.agent_workers.specs.Watched.{IsUnmarked, AreCellsUnmarked, KnowsOfNone};

use agent_cells::Cell;
use dcop_base::MAX_VARIABLES;

/// How many cells share one word, with one bit each.
const BITS: usize = 64;

/// How many words have a bit for each cell, if there are as many as there can be.
const WORDS: usize = 16;

/// What a part that has all cells keeps of each cell, by its place, which is the number of its
/// agent. A cell is marked if its bit in `waits` is set.
#[derive(Drop)]
pub(crate) struct Watch {
    // Whether something was sent to it since its last visit, or that visit left something that it
    // knows of, with one bit for each cell.
    pub(crate) waits: [u64; WORDS],
    // Whether the current visit, if there is one, sends something to it.
    pub(crate) marks: [bool; MAX_VARIABLES],
}

impl Watch {
    /// A watch to which no send is known.
    pub(crate) fn new() -> Self {
        Watch {
            waits: [0; WORDS],
            marks: [false; MAX_VARIABLES],
        }
    }

    /// The first marked place that is not below `from`, among `cells` cells.
    pub(crate) fn next(&self, from: usize, cells: usize) -> Option<usize>
        ensures within { IfSome result (λ place. (from ≤ place) × (place < cells)) }
        ensures passed { MatchOption result (AreCellsUnmarked self.now.waits from cells)
            (λ place. AreCellsUnmarked self.now.waits from place) }
    {
        let Some(place) = self.first_from(from) else {
            return None;
        };
        if place < cells {
            return Some(place);
        }
        None
    }

    /// The first marked place that is not below `from`.
    fn first_from(&self, from: usize) -> Option<usize>
        ensures within { IfSome result (λ place. from ≤ place) }
        ensures passed { MatchOption result ((to : ℕ) → AreCellsUnmarked self.now.waits from to)
            (λ place. AreCellsUnmarked self.now.waits from place) }
    {
        let own = from / BITS;
        if own >= WORDS {
            return None;
        }
        let ahead = self.waits[own] >> (from % BITS);
        if ahead != 0 {
            return Some(from + ahead.trailing_zeros() as usize);
        }
        for word in own + 1..WORDS {
            let waits = self.waits[word];
            if waits != 0 {
                return Some(word * BITS + waits.trailing_zeros() as usize);
            }
        }
        None
    }

    /// Takes away the mark of the cell at this place, which is visited. Returns whether there was
    /// one.
    pub(crate) fn look(&mut self, place: usize) -> bool
        ensures kept { (k : ℕ) → k ≢ place → IsUnmarked self.new.waits k → IsUnmarked self.old.waits k }
        ensures here { place < variable_limit → result ≡ false → IsUnmarked self.old.waits place }
    {
        let marked = self.is_marked(place);
        if place < MAX_VARIABLES {
            self.waits[place / BITS] &= !(1 << (place % BITS));
        }
        marked
    }

    /// Whether the cell at this place is marked.
    fn is_marked(&self, place: usize) -> bool
        ensures { place < variable_limit → result ≡ false → IsUnmarked self.now.waits place }
    {
        place < MAX_VARIABLES && self.waits[place / BITS] >> (place % BITS) & 1 != 0
    }

    /// Marks the visited cell at this place, unless it rests.
    pub(crate) fn keep_own(&mut self, place: usize, cell: &Cell)
        ensures kept { (k : ℕ) → IsUnmarked self.new.waits k → IsUnmarked self.old.waits k }
        ensures marks { self.new.marks ≡ self.old.marks }
        ensures rests { place < variable_limit → IsUnmarked self.new.waits place → KnowsOfNone (λ b. meaning (b.vtable, b.value)) cell.now }
    {
        if !cell.rests() {
            self.mark(place);
        }
    }

    /// Marks the neighbours of this cell to which its visit sent something.
    pub(crate) fn keep(&mut self, cell: &Cell)
        ensures kept { (k : ℕ) → IsUnmarked self.new.waits k → IsUnmarked self.old.waits k }
        ensures sent { (q : ℕ) → q < length (peers (state_of (λ b. meaning (b.vtable, b.value)) cell.now).taken)
            → slice_index_or (peers (state_of (λ b. meaning (b.vtable, b.value)) cell.now).taken) q 0 < variable_limit
            → IsUnmarked self.new.waits (slice_index_or (peers (state_of (λ b. meaning (b.vtable, b.value)) cell.now).taken) q 0)
            → slice_get self.old.marks (slice_index_or (peers (state_of (λ b. meaning (b.vtable, b.value)) cell.now).taken) q 0) ≡ Some false }
    {
        for place in 0..cell.degree() {
            let near = cell.neighbour(place).0 as usize;
            self.keep_mark(near);
        }
    }

    /// Marks this place if the visit sent something to its agent, and forgets what it sent there.
    fn keep_mark(&mut self, place: usize)
        ensures kept { (k : ℕ) → IsUnmarked self.new.waits k → IsUnmarked self.old.waits k }
        ensures same { (k : ℕ) → IsUnmarked self.new.waits k → slice_get self.new.marks k ≡ slice_get self.old.marks k }
        ensures sent { place < variable_limit → IsUnmarked self.new.waits place → slice_get self.new.marks place ≡ Some false }
    {
        if place < MAX_VARIABLES && self.marks[place] {
            self.marks[place] = false;
            self.mark(place);
        }
    }

    /// Marks this place.
    fn mark(&mut self, place: usize)
        ensures kept { (k : ℕ) → IsUnmarked self.new.waits k → IsUnmarked self.old.waits k }
        ensures marks { self.new.marks ≡ self.old.marks }
        ensures here { place < variable_limit → IsUnmarked self.new.waits place → ⊥ }
    {
        if place < MAX_VARIABLES {
            self.waits[place / BITS] |= 1 << (place % BITS);
        }
    }
}
