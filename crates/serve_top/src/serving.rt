//! The server's top call.

ghost use Rattle.std.specs.Prelude.{◌≡◌, ◌≢◌, ◌⊎◌, map, string_bytes, IfOk, OnErr, IsOk, IsErr};
ghost use Rattle.dcop_edge.specs.Faults.{Rose};
ghost use Rattle.answer_io.specs.Showing.{StaysUnless};
ghost use Rattle.serve_top.specs.Words.{AreWordsInRange, words_read};
ghost use Rattle.serve_top.specs.Told.{HasSummaryText};
ghost use Rattle.serve_top.specs.Serving.{listening, sinking, IsServeAnswer, AnswersServe, ShowsSummary, HasAnswered};

use crate::answer::{ServeAnswer, text_of};
use crate::status::ServeStatus;
use crate::words::{ServeWords, read_words};
use dcop_base::NoMemory;
use dcop_edge::{Gate, Sink};
use reply_cache::FreshMaker;
use serve_clients::{ListenFault, Listener, Plan, serve_clients};
use solve_serve::write_all;
use std::alloc::Global;
use std::marker::Sync;
use std::sync::Wait;
use std::thread::Threads;

/// Answers these words, which are the arguments of the program: opens the listener, accepts as many
/// clients as they say, serves them concurrently over one cache of replies, each with a fresh
/// maker, gives the connections back, and writes to the sink how the sessions ended. The call may
/// wait.
///
/// [`ServeStatus::LinkFault`] and [`ServeStatus::WriteFault`] come only if the listener or the sink
/// failed in this call. With `WriteFault` a prefix of the answer is written. With
/// [`ServeStatus::NoMemory`], when memory runs out, nothing is written. Otherwise the whole answer
/// is written, and the sink is finished. In all cases each connection that was accepted was given
/// back.
pub fn serve_all<R: Threads + Wait + Sync, L: Listener, K: Sink, M: FreshMaker, G: Gate>(
    rt: &R,
    alloc: Global,
    words: &[String],
    listener: &mut L,
    sink: &mut K,
    gate: &G,
) -> ServeStatus
    ensures answered { result ≢ ServeStatus.NoMemory → HasAnswered L.S.left L.S.faults L.K.held L.K.faults M.is_reply (map string_bytes words.now)
        (listening (L.faults listener.old) (L.waiting listener.old) (L.closed listener.old))
        (listening (L.faults listener.new) (L.waiting listener.new) (L.closed listener.new))
        (sinking (K.held sink.old) (K.finished sink.old) (K.faults sink.old))
        (sinking (K.held sink.new) (K.finished sink.new) (K.faults sink.new)) result }
    ensures unwritten { result ≡ ServeStatus.NoMemory → sink.new ≡ sink.old }
    ensures refused { result ≡ ServeStatus.BadWords → IsErr (words_read (map string_bytes words.now)) }
    ensures link_fault { result ≡ ServeStatus.LinkFault → Rose (L.faults listener.old) (L.faults listener.new) }
    ensures write_fault { result ≡ ServeStatus.WriteFault → Rose (K.faults sink.old) (K.faults sink.new) }
    ensures listener_failed { StaysUnless (L.faults listener.old) (L.faults listener.new)
        ((result ≡ ServeStatus.LinkFault) ⊎ (result ≡ ServeStatus.WriteFault) ⊎ (result ≡ ServeStatus.NoMemory)) }
    ensures sink_failed { StaysUnless (K.faults sink.old) (K.faults sink.new)
        (result ≡ ServeStatus.WriteFault) }
    ensures complete { IsOk (words_read (map string_bytes words.now)) → ¬ Rose (L.faults listener.old) (L.faults listener.new) → ¬ Rose (K.faults sink.old) (K.faults sink.new) →
        (result ≡ ServeStatus.Solved) ⊎ (result ≡ ServeStatus.NoMemory) }
    ensures none_lent { L.lent listener.new ≡ L.lent listener.old }
{
    answer_all::<R, L, K, M, G>(rt, alloc, words, listener, sink, gate)
}

/// [`serve_all`], with the clauses from which its other clauses follow.
fn answer_all<R: Threads + Wait + Sync, L: Listener, K: Sink, M: FreshMaker, G: Gate>(
    rt: &R,
    alloc: Global,
    words: &[String],
    listener: &mut L,
    sink: &mut K,
    gate: &G,
) -> ServeStatus
    ensures answered { result ≢ ServeStatus.NoMemory → HasAnswered L.S.left L.S.faults L.K.held L.K.faults M.is_reply (map string_bytes words.now)
        (listening (L.faults listener.old) (L.waiting listener.old) (L.closed listener.old))
        (listening (L.faults listener.new) (L.waiting listener.new) (L.closed listener.new))
        (sinking (K.held sink.old) (K.finished sink.old) (K.faults sink.old))
        (sinking (K.held sink.new) (K.finished sink.new) (K.faults sink.new)) result }
    ensures unwritten { result ≡ ServeStatus.NoMemory → sink.new ≡ sink.old }
    ensures listener_failed { StaysUnless (L.faults listener.old) (L.faults listener.new)
        ((result ≡ ServeStatus.LinkFault) ⊎ (result ≡ ServeStatus.WriteFault) ⊎ (result ≡ ServeStatus.NoMemory)) }
    ensures none_lent { L.lent listener.new ≡ L.lent listener.old }
{
    match answer_of::<R, L, M, G>(rt, alloc, words, listener, gate) {
        Ok(answer) => show(alloc, &answer, sink),
        Err(NoMemory) => ServeStatus::NoMemory,
    }
}

/// The answer to words.
fn answer_of<R: Threads + Wait + Sync, L: Listener, M: FreshMaker, G: Gate>(
    rt: &R,
    alloc: Global,
    words: &[String],
    listener: &mut L,
    gate: &G,
) -> Result<ServeAnswer, NoMemory>
    ensures belongs { IfOk result (λ answer. AnswersServe L.S.left L.S.faults L.K.held L.K.faults M.is_reply (map string_bytes words.now)
        (listening (L.faults listener.old) (L.waiting listener.old) (L.closed listener.old))
        (listening (L.faults listener.new) (L.waiting listener.new) (L.closed listener.new)) answer) }
    ensures told { IfOk result HasSummaryText }
    ensures quiet { OnErr result (L.faults listener.new ≡ L.faults listener.old) }
    ensures none_lent { L.lent listener.new ≡ L.lent listener.old }
{
    match read_words(words) {
        Ok(asked) => served::<R, L, M, G>(rt, alloc, asked, listener, gate),
        Err(refused) => Ok(ServeAnswer::Words {
            at: refused.at,
            kind: refused.kind,
        }),
    }
}

/// The answer to words that are accepted.
fn served<R: Threads + Wait + Sync, L: Listener, M: FreshMaker, G: Gate>(
    rt: &R,
    alloc: Global,
    asked: ServeWords,
    listener: &mut L,
    gate: &G,
) -> Result<ServeAnswer, NoMemory>
    requires { AreWordsInRange asked }
    ensures belongs { IfOk result (λ answer. IsServeAnswer L.S.left L.S.faults L.K.held L.K.faults M.is_reply (Ok asked)
        (listening (L.faults listener.old) (L.waiting listener.old) (L.closed listener.old))
        (listening (L.faults listener.new) (L.waiting listener.new) (L.closed listener.new)) answer) }
    ensures told { IfOk result HasSummaryText }
    ensures quiet { OnErr result (L.faults listener.new ≡ L.faults listener.old) }
    ensures none_lent { L.lent listener.new ≡ L.lent listener.old }
{
    if listener.open(asked.port as u16).is_err() {
        return Ok(ServeAnswer::Link);
    }
    let plan = Plan {
        clients: asked.clients as u32,
        entries: asked.entries as u32,
        workers: asked.workers as u32,
    };
    match serve_clients::<R, L, M, G>(rt, alloc, listener, plan, gate) {
        Ok(outcome) => Ok(ServeAnswer::Summary {
            ends: outcome.ends,
            looks: outcome.looks,
        }),
        Err(ListenFault::Failed) => Ok(ServeAnswer::Link),
        Err(ListenFault::NoMemory) => Err(NoMemory),
    }
}

/// Writes the whole text of an answer, finishes the sink, and gives the status.
fn show<K: Sink>(alloc: Global, answer: &ServeAnswer, sink: &mut K) -> ServeStatus
    requires { HasSummaryText answer.now }
    ensures shows { result ≢ ServeStatus.NoMemory → ShowsSummary answer.now (sinking (K.held sink.old) (K.finished sink.old) (K.faults sink.old)) (sinking (K.held sink.new) (K.finished sink.new) (K.faults sink.new)) result }
    ensures unwritten { result ≡ ServeStatus.NoMemory → sink.new ≡ sink.old }
{
    let Ok(text) = text_of(alloc, answer) else {
        return ServeStatus::NoMemory;
    };
    match write_all(sink, text.as_slice()) {
        Ok(()) => ServeStatus::of(answer),
        Err(_) => ServeStatus::WriteFault,
    }
}
