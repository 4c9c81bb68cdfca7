//! The byte code of a message between two nodes.
//!
//! [`encode`] writes the code of an envelope: its stamp, the tag of its message, and the fields of
//! the message (`specs/Code.antt`). [`decode`] is the inverse. It refuses exactly those bytes that
//! are the code of no envelope (`specs/Form.antt`). A refusal has the position of the first field
//! that is cut short or outside its range, or of the first byte that is left over. Decoding the
//! code of an envelope gives that envelope, unless memory runs out. Different envelopes have
//! different codes ([`codes_differ`]).
#![tactic(auto)]

mod context;
mod fault;
mod law;
mod list;
mod message;
mod number;
mod reader;
mod stop;
mod writer;

pub use fault::DecodeFault;
pub use law::{codes_are_good, codes_differ};
pub use reader::decode;
pub use writer::encode;
