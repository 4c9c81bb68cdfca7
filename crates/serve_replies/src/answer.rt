//! The answer to the bytes of a request.

ghost use Rattle.std.specs.Prelude.{◌≡◌, map, string_bytes, IfOk};
ghost use Rattle.serve_replies.specs.Reply.{dpop_words, IsReply};

use dcop_base::{Bytes, NoMemory};
use dcop_edge::{OpenGate, SteadySource};
use solve_answers::answer_of;
use solve_report::text_of;
use std::alloc::{AllocGlobal, Global};
use std::marker::Sync;
use std::net::Net;
use std::random::RandomSource;
use std::sync::Wait;
use std::thread::Threads;
use std::time::Clock;
use wire_pump::SteadyDialer;

/// The text that `solve --method dpop` writes if these bytes are its whole input; this may be a
/// refusal. One worker runs the agents, but any number of them gives the same text.
///
/// # Errors
///
/// [`NoMemory`] if memory runs out.
pub fn answer_bytes<R: Threads + Wait + Clock + RandomSource + Net + AllocGlobal + Sync>(
    rt: &R,
    alloc: Global,
    bytes: &[u8],
) -> Result<Bytes, NoMemory>
    ensures { IfOk result (IsReply bytes.now) }
{
    let words = words_of_dpop(alloc)?;
    let mut source = SteadySource::new(Vec::from_slice(alloc, bytes)?);
    let mut dialer = SteadyDialer::new();
    let answer = answer_of(
        rt,
        alloc,
        words.as_slice(),
        &mut source,
        &OpenGate,
        &mut dialer,
    )?;
    text_of(alloc, &answer)
}

/// The words `solve --method dpop`.
fn words_of_dpop(alloc: Global) -> Result<Vec<String>, NoMemory>
    ensures { IfOk result (λ words. map string_bytes words.items ≡ dpop_words) }
{
    let mut words = Vec::with_capacity(alloc, 3)?;
    words.push_reserved(String::from_str(alloc, "solve")?);
    words.push_reserved(String::from_str(alloc, "--method")?);
    words.push_reserved(String::from_str(alloc, "dpop")?);
    Ok(words)
}
