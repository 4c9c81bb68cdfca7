//! The maker of a server's replies: what `solve --method dpop` writes for the bytes of a request.
//!
//! [`answer_bytes`] answers bytes with the text that the program `dcop` would write for them; this
//! may be a refusal. [`SolveMaker`] uses it to make the replies of a server. The law that answers
//! of DPOP are one gives each key one reply.
#![tactic(auto)]

mod answer;
mod handles;
mod maker;

pub use answer::answer_bytes;
pub use maker::SolveMaker;
