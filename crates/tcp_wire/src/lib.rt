//! Wires over sockets of this machine: the trusted edge of what nodes send to each other.
//!
//! A [`TcpDialer`] opens each pair of wires as one connection on 127.0.0.1. It drives futures on
//! the event loop of `tokio`, on the calling thread. A [`TcpWire`] tells how many bytes it has sent
//! and received, and its counts of waits and faults. It does not tell the bytes: no clause says
//! that a socket carries them. The calls of `tokio` are trusted to do what they say; nothing else
//! is.
#![tactic(auto)]

mod connection;
mod dialer;
mod wire;

pub use dialer::TcpDialer;
pub use wire::TcpWire;
