//! The places of tails among the neighbours of their agents.

use dcop_base::MAX_VARIABLES;

/// For each agent, the place among its neighbours of the receiver of its next link, if all links
/// are visited in the order of their receivers. No clause says that these places are right: if one
/// is wrong, the tail is found by binary search.
#[derive(Drop)]
pub(crate) struct TailPlaces {
    next: [u16; MAX_VARIABLES],
}

impl TailPlaces {
    /// No link is visited so far.
    pub(crate) fn new() -> Self {
        TailPlaces {
            next: [0; MAX_VARIABLES],
        }
    }

    /// The place of this agent's next link, which is visited by this.
    pub(crate) fn pass(&mut self, agent: usize) -> usize {
        if agent >= MAX_VARIABLES {
            return 0;
        }
        let place = self.next[agent];
        self.next[agent] = place.wrapping_add(1);
        place as usize
    }
}
