//! What is sent.

use dcop_base::Bytes;
use std::alloc::Global;

/// This byte, `len` times; `None` if memory runs out.
pub(crate) fn filled(alloc: Global, byte: u8, len: usize) -> Option<Bytes> {
    let bytes = vec![in alloc; byte; len].ok()?;
    Some(Bytes::from_vec(bytes))
}

/// `len` bytes without a short period, by Knuth's linear congruential generator; `None` if memory
/// runs out.
pub(crate) fn mixed(alloc: Global, seed: u64, len: usize) -> Option<Bytes> {
    let mut bytes = Vec::with_capacity(alloc, len).ok()?;
    let mut state = seed;
    for _ in 0..len {
        state = state
            .wrapping_mul(6_364_136_223_846_793_005)
            .wrapping_add(1_442_695_040_888_963_407);
        bytes.push((state >> 56) as u8).ok()?;
    }
    Some(Bytes::from_vec(bytes))
}
