//! Replies that are made once and kept: what makes them, and the cache that many sessions share.
//!
//! A [`Maker`] makes the reply to a key; for each type of maker a key has at most one reply. A
//! [`ReplyCache`] keeps the last used replies. Sessions share it as a [`SharedCache`], whose lock is
//! held only by a call that looks or keeps. A reply is shared too ([`SharedBytes`]), so that none is
//! copied while the lock is held. A [`Key`] brings a digest of its bytes, so that none is hashed
//! while the lock is held.
//!
//! Whenever the lock is free, each entry is the reply to its key, and the cache's counts are the
//! sums of its users' shares. Each look is counted in the [`LookShare`] of the session that looked,
//! and each look that found nothing is counted there once more.
#![tactic(auto)]

mod cache;
mod key;
mod limit;
mod look;
mod maker;
mod share;
mod shared;
mod shared_cache;

pub use cache::ReplyCache;
pub use key::Key;
pub use limit::{MAX_ENTRIES, MAX_KEY, MAX_REPLY, limits_agree};
pub use look::Look;
pub use maker::{FreshMaker, Maker};
pub use share::LookShare;
pub use shared::SharedBytes;
pub use shared_cache::SharedCache;
