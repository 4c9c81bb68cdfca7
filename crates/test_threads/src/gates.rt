//! Gates that record how two visitors passed: two agents, or the first two sessions of a server.

use dcop_base::VarId;
use dcop_edge::Gate;
use std::sync::atomic::{AtomicU64, Ordering};
use std::thread::yield_now;

/// How many times a visitor looks for the other one.
const MOST_LOOKS: u32 = 100_000_000;

/// Two numbers, one for each of the visitors 0 and 1.
#[derive(Drop)]
struct Pair {
    first: AtomicU64,
    second: AtomicU64,
}

impl Pair {
    fn new() -> Self {
        Pair {
            first: AtomicU64::new(0),
            second: AtomicU64::new(0),
        }
    }

    // The number of this visitor and that of the other one; `None` if it is neither of the two.
    fn of(&self, visitor: VarId) -> Option<(&AtomicU64, &AtomicU64)> {
        match visitor.0 {
            0 => Some((&self.first, &self.second)),
            1 => Some((&self.second, &self.first)),
            _ => None,
        }
    }
}

/// Counts the visits of each of the two.
#[derive(Drop)]
pub(crate) struct CountingGate {
    visits: Pair,
}

impl CountingGate {
    /// No visit was made.
    pub(crate) fn new() -> Self {
        CountingGate {
            visits: Pair::new(),
        }
    }

    /// How many visits each of the two made.
    pub(crate) fn visits(&self) -> (u64, u64) {
        (
            self.visits.first.load(Ordering::SeqCst),
            self.visits.second.load(Ordering::SeqCst),
        )
    }
}

impl Gate for CountingGate {
    fn pass(&self, visitor: VarId) {
        if let Some((own, _)) = self.visits.of(visitor) {
            own.fetch_add(1, Ordering::SeqCst);
        }
    }
}

/// Holds each of the two at its visits until the other one has come too, or for `MOST_LOOKS` looks.
/// Others pass.
#[derive(Drop)]
pub(crate) struct MeetingGate {
    came: Pair,
    missed: AtomicU64,
}

impl MeetingGate {
    /// A gate to which nobody has come.
    pub(crate) fn new() -> Self {
        MeetingGate {
            came: Pair::new(),
            missed: AtomicU64::new(0),
        }
    }

    /// How many visits went on without the other one.
    pub(crate) fn missed(&self) -> u64 {
        self.missed.load(Ordering::SeqCst)
    }
}

impl Gate for MeetingGate {
    fn pass(&self, visitor: VarId) {
        let Some((own, other)) = self.came.of(visitor) else {
            return;
        };
        own.store(1, Ordering::SeqCst);
        for _ in 0..MOST_LOOKS {
            if other.load(Ordering::SeqCst) == 1 {
                return;
            }
            yield_now();
        }
        self.missed.fetch_add(1, Ordering::SeqCst);
    }
}
