//! Frames on a stream of bytes. A frame is the length of its payload in four bytes, big-endian, and
//! then the payload.
//!
//! [`frame`] writes the frame of a payload. A [`FrameReader`] takes a stream in pieces of any size.
//! It hands out the payloads of the whole frames in order, up to the first length field above its
//! limit.
//!
//! Contracts see a reader as a record of what it holds (`specs/Reader.antt`), and the clauses of
//! its methods say how each changes this record. The laws of whole streams (`specs/Run.antt`) are
//! contracts of functions that do nothing. [`reads_whole`] says that however a stream is cut, its
//! frames are what was handed out and what is still held. [`splits_once`] says that no other
//! payloads are.
#![tactic(auto)]

mod cut;
mod fault;
mod law;
mod payload;
mod reader;

pub use fault::FrameFault;
pub use law::{hands_on, reads_whole, splits_once, takes_on};
pub use payload::{MAX_PAYLOAD, frame, payloads_agree};
pub use reader::FrameReader;
