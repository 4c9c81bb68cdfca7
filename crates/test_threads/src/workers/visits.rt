//! The top call on the pair of agents, whose visits pass a gate.

use crate::gates::{CountingGate, MeetingGate};
use crate::host::Host;
use crate::pair::SOLVED;
use crate::solving::{Answered, answer_on_pair};
use dcop_edge::Gate;
use solve_top::Status;
use wire_pump::SteadyDialer;

/// How many visits of agents went on without the other one when two workers solve the problem on
/// these words; `None` if the answer is another one.
pub(crate) fn missed_by_two_workers<R: Host>(rt: &R, words: &str) -> Option<u64> {
    let gate = MeetingGate::new();
    let answered = answer_through(rt, words, &gate)?;
    if answered.text.as_str() != SOLVED {
        return None;
    }
    Some(gate.missed())
}

/// How many times each agent is visited by one worker on these words; `None` if they are refused.
pub(crate) fn visits_of<R: Host>(rt: &R, words: &str) -> Option<(u64, u64)> {
    let gate = CountingGate::new();
    answer_through(rt, words, &gate)?;
    Some(gate.visits())
}

// The answer to these words through this gate, if its status is that of a solved problem.
fn answer_through<R: Host, G: Gate>(rt: &R, words: &str, gate: &G) -> Option<Answered> {
    let answered = answer_on_pair(rt, words, gate, &mut SteadyDialer::new())?;
    if answered.code != Status::Solved.code() {
        return None;
    }
    Some(answered)
}
