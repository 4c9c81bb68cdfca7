//! The server's top call: words, a listener and a sink in, and a status out.
//!
//! [`read_words`] reads the four numbers that the words give, or refuses the words by their first
//! fault. [`text_of`] gives the text of an answer. Both are exact: their clauses say which numbers
//! and which text.
//!
//! [`serve_all`] does all the work of a server, over any listener and any maker of replies. Its
//! clauses say which answer belongs to which words, how each session ended and what was written to
//! it. They also say that the number of looks in the answer is that of all sessions together, and
//! when each fault may come.
#![tactic(auto)]

mod answer;
mod serving;
mod status;
mod summary;
mod words;

pub use answer::{ServeAnswer, text_of};
pub use serving::serve_all;
pub use status::ServeStatus;
pub use words::{Refused, ServeWords, read_words};
