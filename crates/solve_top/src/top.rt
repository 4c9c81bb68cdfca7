//! The top call.

ghost use Rattle.std.specs.Prelude.{◌≡◌, ◌≢◌, ◌+◌, ◌⊎◌, ℕ, List, Some, map, string_bytes};
ghost use Rattle.dcop_base.specs.Limits.{input_limit};
ghost use Rattle.dcop_edge.specs.Faults.{Rose};
ghost use Rattle.answer_io.specs.Input.{Took, read_limit, source_state};
ghost use Rattle.answer_io.specs.Output.{sink_state};
ghost use Rattle.answer_io.specs.Showing.{StaysUnless};
ghost use Rattle.solve_agents.specs.Wiring.{HasUntrustedWire};
ghost use Rattle.solve_answers.specs.Nodes.{AskForNodes};
ghost use Rattle.solve_top.specs.Solving.{Solves, Accepts, AsksDrill, GoesWell};

use answer_io::{Status, show};
use dcop_edge::{Gate, Sink, Source};
use solve_answers::{Task, answer_of};
use solve_words::Format;
use std::alloc::Global;
use std::net::Net;
use std::random::RandomSource;
use std::sync::Wait;
use std::thread::Threads;
use std::time::Clock;
use wire_pump::Dialer;

/// Answers these words, which are the arguments of the program: reads the source as they ask,
/// writes the answer to the sink, and gives the status.
///
/// The words are tested before anything is read, and the whole answer is built before anything is
/// written. Refusals are written to the sink too. At most 2^28 + 65,536 bytes are taken. Each read
/// but the last takes at least one, and reading stops with the first read that takes the total
/// above 2^28.
///
/// `solve` reads a problem and reports an assignment:
///
/// * with `--method plain`, which tries all assignments, its sum is the best of any, unless there
///   are too many assignments;
/// * with `--method dpop`, by agents on a tree, its sum is the best of any, unless their tables
///   would be too wide;
/// * with `--method adopt`, by agents that agree step by step, its sum is at most the requested
///   error worse than the best; or the budget of messages is spent, and the report's bounds enclose
///   the best sum;
/// * with `--method auto`, or without a method, it answers as with `dpop`, or as with `adopt` if
///   the tables would be too wide;
/// * with `--method cut`, by `dpop` in turns, its sum is the best of any, unless there are too many
///   turns or cells. In each turn some variables have a fixed value, so that no joined table has
///   more cells than `--cells`.
///
/// `drill` reads nothing: it makes a problem from a number, solves it by one of these methods and
/// writes a summary, or the refusal. `check` reads a problem and the report after it. It says
/// whether the report's certificate holds, so that its cost is at most the printed gap worse than
/// the best sum. `replay` reads these too, replays the report's log as far as asked, and writes the
/// state that each agent reaches. `tree` reads a problem and writes the tree over which its agents
/// work. `upgrade` reads a problem and writes it in the newest version of its text. With `--format
/// wcsp` all of these but `drill` read a WCSP text as their problem. `edit` reads a problem and the
/// edit lines after it. At each line that asks for it, it writes the optimum of the problem as
/// edited so far: the values and the cost that DPOP gives.
///
/// With `--nodes` the agents of `dpop`, `adopt` and `auto` are spread over `n` nodes, which talk
/// over wires that the dialer gives. The answer then needs no trust in these wires.
///
/// [`Status::ReadFault`], [`Status::WriteFault`] and [`Status::LinkFault`] come only if the count
/// of faults of the source, the sink or the dialer rose in this call, or is at its limit.
/// [`Status::LinkDiffers`] comes only if the dialer is not honest and there is a new wire: code for
/// any type of dialer gets one only from its dialer. The last two come only with more than one
/// node.
///
/// With `WriteFault` a prefix of the answer is written. If that answer is that the links failed or
/// differ, the same conditions hold. With [`Status::NoMemory`], when memory runs out, nothing is
/// written. Otherwise the whole answer is written, and the sink is finished.
pub fn solve<
    R: Threads + Wait + Clock + RandomSource + Net + AllocGlobal + Sync,
    S: Source,
    K: Sink,
    G: Gate,
    D: Dialer,
>(
    rt: &R,
    alloc: Global,
    words: &[String],
    source: &mut S,
    sink: &mut K,
    gate: &G,
    dialer: &mut D,
) -> Status
    ensures read_fault { result ≡ Status.ReadFault →
        Rose (S.faults source.old) (S.faults source.new) }
    ensures write_fault { result ≡ Status.WriteFault →
        Rose (K.faults sink.old) (K.faults sink.new) }
    ensures link_fault { result ≡ Status.LinkFault →
        AskForNodes (map string_bytes words.now) × Rose (D.faults dialer.old) (D.faults dialer.new) }
    ensures link_differs { result ≡ Status.LinkDiffers →
        AskForNodes (map string_bytes words.now)
        × HasUntrustedWire D.W.told (D.is_honest dialer.old) }
    ensures answered { result ≢ Status.NoMemory → Solves (map string_bytes words.now)
        (HasUntrustedWire D.W.told (D.is_honest dialer.old))
        (D.faults dialer.old) (D.faults dialer.new)
        (source_state (S.left source.old) (S.faults source.old) (S.gave source.old))
        (source_state (S.left source.new) (S.faults source.new) (S.gave source.new))
        (sink_state (K.held sink.old) (K.finished sink.old))
        (sink_state (K.held sink.new) (K.finished sink.new)) result }
    ensures unwritten { result ≡ Status.NoMemory → sink.new ≡ sink.old }
    ensures taken { Took 0 (input_limit + read_limit)
        (source_state (S.left source.old) (S.faults source.old) (S.gave source.old))
        (source_state (S.left source.new) (S.faults source.new) (S.gave source.new)) }
    ensures source_failed { StaysUnless (S.faults source.old) (S.faults source.new)
        ((result ≡ Status.ReadFault) ⊎ (result ≡ Status.WriteFault) ⊎ (result ≡ Status.NoMemory)) }
    ensures sink_failed { StaysUnless (K.faults sink.old) (K.faults sink.new)
        (result ≡ Status.WriteFault) }
    ensures dialer_failed { StaysUnless (D.faults dialer.old) (D.faults dialer.new)
        ((result ≡ Status.LinkFault) ⊎ (result ≡ Status.WriteFault) ⊎ (result ≡ Status.NoMemory)) }
    ensures complete { (text : List ℕ) → S.left source.old ≡ Some text →
        (accepts : Accepts (map string_bytes words.now) text) →
        ¬ Rose (S.faults source.old) (S.faults source.new) →
        ¬ Rose (K.faults sink.old) (K.faults sink.new) →
        ¬ Rose (D.faults dialer.old) (D.faults dialer.new) →
        (AskForNodes (map string_bytes words.now) → D.is_honest dialer.old) →
        GoesWell result accepts.task }
    ensures drilled { (asks : AsksDrill (map string_bytes words.now)) →
        ¬ Rose (K.faults sink.old) (K.faults sink.new) →
        ¬ Rose (D.faults dialer.old) (D.faults dialer.new) →
        (AskForNodes (map string_bytes words.now) → D.is_honest dialer.old) →
        GoesWell result (Task.File Format.Dcop asks.drill.task) }
{
    let Ok(answer) = answer_of(rt, alloc, words, source, gate, dialer) else {
        return Status::NoMemory;
    };
    show(alloc, &answer, sink)
}
