//! What top calls answer to words.

use crate::host::Host;
use crate::pair::PAIR;
use dcop_edge::{Gate, MemorySink, MemorySource};
use solve_top::solve;
use std::alloc::Global;
use wire_pump::Dialer;

/// What a top call answered.
#[derive(Drop)]
pub(crate) struct Answered {
    /// The code of its status.
    pub(crate) code: u8,
    /// What it wrote.
    pub(crate) text: String,
}

impl Answered {
    /// This code with what was written to this sink; `None` if that is no text, or memory runs out.
    pub(crate) fn new(alloc: Global, code: u8, sink: &MemorySink) -> Option<Self> {
        let text = sink.bytes().to_vec(alloc).ok()?;
        Some(Answered {
            code,
            text: String::from_utf8(text).ok()?,
        })
    }
}

/// What [`solve`] answers on the pair of agents to these words, with this gate and over wires of
/// this dialer; `None` if that is no text, or memory runs out.
pub(crate) fn answer_on_pair<R, G, D>(
    rt: &R,
    words: &str,
    gate: &G,
    dialer: &mut D,
) -> Option<Answered>
where
    R: Host,
    G: Gate,
    D: Dialer,
{
    let alloc = rt.alloc();
    let words = words_in(alloc, words)?;
    let problem = PAIR.as_bytes().to_vec(alloc).ok()?;
    let mut source = MemorySource::new(problem, Vec::new(alloc));
    let mut sink = MemorySink::new(alloc, Vec::new(alloc));
    let status = solve(rt, alloc, &words, &mut source, &mut sink, gate, dialer);
    Answered::new(alloc, status.code(), &sink)
}

/// The words of this line, which single spaces part; `None` if memory runs out.
pub(crate) fn words_in(alloc: Global, line: &str) -> Option<Vec<String>> {
    let mut words = Vec::new(alloc);
    for word in line.split(' ') {
        words.push(String::from_str(alloc, word).ok()?).ok()?;
    }
    Some(words)
}
