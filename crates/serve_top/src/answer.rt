//! What the server's program answers.

ghost use Rattle.std.specs.Prelude.{◌≡◌, ◌<◌, ◌^◌, IfOk, ⊤};
ghost use Rattle.serve_top.specs.Text.{answer_text, served_in};
ghost use Rattle.serve_top.specs.Told.{HasSummaryText};

use crate::summary::write_summary;
use dcop_base::{Bytes, NoMemory};
use solve_serve::SessionEnd;
use std::alloc::Global;

/// What the server's program answers.
#[derive(Debug, Drop)]
pub enum ServeAnswer {
    /// Its words are refused.
    Words {
        /// The place of the word that is refused, counted from 1.
        at: u64,
        /// The kind of the refusal.
        kind: u8,
    },
    /// Its listener failed.
    Link,
    /// The sessions have ended.
    Summary {
        /// How each session ended.
        ends: Vec<SessionEnd>,
        /// How many looks at the cache there were.
        looks: u64,
    },
}

/// The text of an answer. All sessions of a summary together served fewer than 2^64 requests.
///
/// # Errors
///
/// [`NoMemory`] if memory runs out.
pub fn text_of(alloc: Global, answer: &ServeAnswer) -> Result<Bytes, NoMemory>
    requires { HasSummaryText answer.now }
    ensures { IfOk result (λ text. text ≡ answer_text answer.now) }
{
    let mut text = String::new(alloc);
    match answer {
        ServeAnswer::Words { at, kind } => {
            write!(text, "refused words at {at} kind {kind}\n")?;
        }
        ServeAnswer::Link => text.push_str("refused link\n")?,
        ServeAnswer::Summary { ends, looks } => write_summary(&mut text, ends.as_slice(), *looks)?,
    }
    Ok(Bytes::from_vec(text.into_bytes()))
}
