//! A session's share of all looks at a cache.

use std::sync::ledger::{Ledger, Share};

/// A share of all looks at a cache, and a share of the looks that found nothing. It takes no
/// memory.
#[derive(Drop)]
pub struct LookShare<A: Ledger, B: Ledger> {
    /// The share of the looks.
    pub looks: Share<A>,
    /// The share of the looks that found nothing.
    pub misses: Share<B>,
}
