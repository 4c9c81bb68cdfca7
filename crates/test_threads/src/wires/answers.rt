//! The top call on the pair of agents, each in a node of its own.

use crate::host::Host;
use crate::pair::SOLVED;
use crate::solving::answer_on_pair;
use anyhow::{Result, bail};
use dcop_edge::OpenGate;
use wire_pump::Dialer;

/// The words.
const WORDS: &str = "solve --method dpop --nodes 2";

/// The answer if a wire failed.
const LINK: &str = "refused link\n";

/// How two nodes answer.
#[derive(Clone, Copy)]
pub(crate) enum Answer {
    /// With exit code 0 and the whole text that is written without a fault.
    Solved,
    /// With exit code 8: a link failed.
    Link,
    /// With exit code 9: what was received is not what was sent.
    Differs,
}

/// The answer over wires of this dialer; an error if it is none of the three.
pub(crate) fn answer_over<R: Host, D: Dialer>(rt: &R, dialer: &mut D) -> Result<Answer> {
    let Some(answered) = answer_on_pair(rt, WORDS, &OpenGate, dialer) else {
        bail!("no answer");
    };
    match kind_of(answered.code, answered.text.as_bytes()) {
        Some(answer) => Ok(answer),
        None => bail!("exit {} with another text", answered.code),
    }
}

// Which answer it is, by its exit status and its text.
fn kind_of(code: u8, text: &[u8]) -> Option<Answer> {
    match code {
        0 if text == SOLVED.as_bytes() => Some(Answer::Solved),
        8 if text == LINK.as_bytes() => Some(Answer::Link),
        9 if tells_difference(text) => Some(Answer::Differs),
        _ => None,
    }
}

// Whether a text reports a difference, of a message or of bytes.
fn tells_difference(text: &[u8]) -> bool {
    text.starts_with(b"refused differs ") || text.starts_with(b"refused bytes ")
}
