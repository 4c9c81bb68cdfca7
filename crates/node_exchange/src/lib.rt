//! What nodes of agents send to each other in an exchange: letters as bytes, over wires that are
//! not trusted.
//!
//! A letter is an envelope with its sender and its receiver. An exchange drains the links between
//! agents of different nodes. A [`LinkPassing`] holds what was drained of one link and what has
//! arrived on it. [`write_letters`] writes the frames of all letters from one node to another, and
//! [`receive`] reads letters from bytes and adds them to the links. If the bytes that came are
//! those that were sent, each link gets exactly what was drained of it. Only bytes that are not
//! whole frames of letters on these links are refused; a refusal has the first byte that differs
//! from what was sent.
//!
//! Each pair of nodes has a pair of wires. For each link, [`pass_all`] sends what an exchange
//! drained of it over the wires between its nodes, in both directions at once, and adds to it what
//! arrived for it. Over joined wires, such as those of an honest dialer, exactly what was drained
//! of a link arrives on it. So it does over wires that tell at the end that each has received all
//! that the other one has sent. Over other wires anything may arrive that is made of whole frames
//! of letters.
#![tactic(auto)]

mod busy;
mod bytes;
mod carry;
mod fault;
mod intake;
mod pass;
mod passing;
mod payload;
mod read;
mod write;

pub use bytes::OtherByte;
pub use fault::PassFault;
pub use intake::receive;
pub use pass::pass_all;
pub use passing::LinkPassing;
pub use payload::Addressed;
pub use write::write_letters;
