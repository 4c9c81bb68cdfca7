//! Sessions of a server: requests are read as frames, and the frames of their replies are written.
//!
//! [`serve_one`] serves one session over a source, a sink and a maker of replies, with a cache of
//! replies that many sessions share. Its clause says which requests were read, that what was
//! written is the frames of their replies, and why the session ended. It also says that a look at
//! the cache was made for each request, and that its reply was made exactly if this look found
//! nothing. A reply from the cache is the reply without it, since each key has only one
//! ([`replies_are_one`]).
//!
//! [`serve_peers`] serves many sessions concurrently, each as soon as a worker is free.
#![tactic(auto)]

mod answer;
mod end;
mod law;
mod limit;
mod peers;
mod permit;
mod request;
mod session;
mod stop;
mod turns;
mod write;

pub use end::SessionEnd;
pub use law::{answers_first, ends_exactly, replies_are_one};
pub use limit::{MAX_REPLIES, MAX_REQUEST, limits_agree};
pub use peers::{Peer, PeerList, serve_peers};
pub use session::serve_one;
pub use write::write_all;
