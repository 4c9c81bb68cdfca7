//! Links: first-in, first-out queues from one thread to another, in which an item waits if the ring
//! is full.
//!
//! A link is a ring of 64 slots, with a backlog at its tail for items that find no free slot. The
//! [`LinkTail`] sends and the [`LinkHead`] takes. Each may move to a thread of its own, and neither
//! waits for the other. When both ends are in one thread, [`settle`] shows that what was taken,
//! what is in the ring and what is in the backlog are, in this order, all that was sent.
//!
//! A link of items of 8 bytes takes 1,046 bytes with both of its ends, as `bench/links.sh`
//! measures: 512 of them are the slots of the ring, 384 its counters. The slots take 64 times the
//! size of an item, so send handles to large items. The backlog takes no memory until it is used.
#![tactic(auto)]

mod ends;
mod memory;

pub use ends::{LinkHead, LinkTail, SLOTS, link, settle, slots_agree};
pub use memory::NoMemory;
