//! The clients of a server, from the listener and back: connections are accepted, served
//! concurrently over one cache of replies, and given back.
//!
//! [`serve_clients`] does all of it. Its clause says for each connection how its session ended. It
//! also says that the looks that the cache counted are those of all sessions together.
//!
//! A [`Listener`] gives connections, each a source and a sink, and takes each back. It counts its
//! faults. For proofs alone it says, if that is known, which connections wait and which were given
//! back.
//!
//! [`MemoryListener`] is the listener in memory; it fails at chosen calls. [`StdListener`] is the
//! real one over sockets: the trusted edge. Of it only counts are known, and its connections wait
//! for a limited time.
#![tactic(auto)]

mod accept;
mod clients;
mod give;
mod listen_fault;
mod listener;
mod memory_listener;
mod standard_listener;

pub use clients::{Outcome, Plan, serve_clients};
pub use listen_fault::ListenFault;
pub use listener::Listener;
pub use memory_listener::MemoryListener;
pub use standard_listener::{MAX_SILENCE, StdListener};
