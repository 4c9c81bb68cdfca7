//! The top call of `dcop_order`: words and a source of bytes in, a problem in another order or a
//! refusal into a sink, and a status.
//!
//! [`order`] does all the work of the program. Its clauses say which reply belongs to which words
//! and input, that its whole text is written and the sink finished, and when each fault may come.
//! The law [`order_answers_are_one`] says that the same words and input have one reply.
#![tactic(auto)]

mod answering;
mod law;
mod top;
mod words;

pub use law::order_answers_are_one;
pub use program_frame::Status;
pub use top::order;
