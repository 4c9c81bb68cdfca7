//! The rows of workers: one round of the two token agents of the pair in their cells, and its
//! agents run by workers.

mod rounds;
mod visits;

use crate::host::Host;
use crate::pair::PAIR;
use crate::rows::print_count;
use problem_text::read_problem;
use rounds::one_round;
use std::io;
use std::thread::Threads;
use visits::{missed_by_two_workers, visits_of};

/// Prints the rows.
pub(crate) fn print_rows<R: Host + Print>(rt: &R) -> io::Result<()> {
    print_count(
        rt,
        "one round of token agents, messages taken",
        taken_in_one_round(rt),
    )?;
    print_count(
        rt,
        "two-workers-meet, visits that saw no other agent",
        missed_by_two_workers(rt, "solve --method dpop --workers 2"),
    )?;
    print_count(
        rt,
        "two-workers-meet-over-nodes, visits that saw no other agent",
        missed_by_two_workers(rt, "solve --method dpop --workers 2 --nodes 2"),
    )?;
    print_visits(rt, "solve --method dpop")?;
    print_visits(rt, "tree")
}

// How many messages the token agents of the pair take in their first round; `None` if the problem
// is refused or the round fails.
fn taken_in_one_round<R: Threads + AllocGlobal + Sync>(rt: &R) -> Option<u64> {
    let Ok(read) = read_problem(rt.alloc(), PAIR.as_bytes()) else {
        return None;
    };
    one_round(rt, &read.file.problem).ok()
}

// Prints how many times each agent is visited on these words.
fn print_visits<R: Host + Print>(rt: &R, words: &str) -> io::Result<()> {
    match visits_of(rt, words) {
        Some((x, y)) => println!(rt; "gate-counts, visits by {words}: x {x}, y {y}"),
        None => println!(rt; "gate-counts, {words}: otherwise"),
    }
}
