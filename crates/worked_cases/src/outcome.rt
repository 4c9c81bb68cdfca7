//! A case, run and compared.

use crate::case::{Answer, Case, Output, Program};
use crate::escape::written;
use crate::input::{case_at, input_of};
use anyhow::{Result, bail};
use dcop_edge::{MemorySink, MemorySource, OpenGate};
use order_top::order;
use search_top::search;
use solve_top::{Status, solve};
use std::net::Net;
use std::random::RandomSource;
use std::rt::Files;
use std::sync::Wait;
use std::thread::Threads;
use std::time::Clock;
use trace_top::trace;
use wire_pump::{MemoryDialer, SteadyDialer};

/// How many runs of cases were made, and how many of these differ.
#[derive(Clone, Copy, Default)]
pub struct Tally {
    pub runs: u64,
    pub differ: u64,
}

impl Tally {
    fn count_run(&mut self) {
        self.runs = self.runs.saturating_add(1);
    }

    pub fn count_different(&mut self) {
        self.differ = self.differ.saturating_add(1);
    }
}

/// What the program answered.
#[derive(Drop)]
struct Found {
    status: u8,
    output: Vec<u8>,
}

/// Runs a case, and prints each of its answers that differs.
pub fn run_case<
    R: Threads + Wait + Clock + RandomSource + Net + Files + Print + AllocGlobal + Sync,
>(rt: &R, name: &str, tally: &mut Tally) -> Result<()> {
    let path = format!(in rt.alloc(); "cases/{name}.case")?;
    let case = case_at(rt, path.as_str())?;
    let input = input_of(rt, &case)?;
    for answer in case.answers.iter() {
        let (first, last) = answer.lengths.unwrap_or((input.len(), input.len()));
        for length in first..=last {
            let Some(prefix) = input.get(..length) else {
                bail!("the input has only {} bytes", input.len());
            };
            let found = found_on(rt, &case, prefix)?;
            tally.count_run();
            if !is_as_expected(answer, &found) {
                tally.count_different();
                println!(rt; "{name}, on {length} bytes:")?;
                print_difference(rt, answer, &found)?;
            }
        }
    }
    Ok(())
}

/// What the program of a case answers to its words on this input.
fn found_on<R: Threads + Wait + Clock + RandomSource + Net + AllocGlobal + Sync>(
    rt: &R,
    case: &Case,
    input: &[u8],
) -> Result<Found> {
    let alloc = rt.alloc();
    let input = input.to_vec(alloc)?;
    let mut source = MemorySource::new(input, case.failing_reads.clone()?);
    let mut sink = MemorySink::new(alloc, case.failing_writes.clone()?);
    let status = match case.program {
        Program::Dcop => solved(rt, case, &mut source, &mut sink)?,
        Program::DcopOrder => order(alloc, &case.words, &mut source, &mut sink),
        Program::DcopSearch => search(alloc, &case.words, &mut source, &mut sink),
        Program::DcopTrace => trace(alloc, &case.words, &mut source, &mut sink),
    };
    Ok(Found {
        status: status.code(),
        output: sink.bytes().to_vec(alloc)?,
    })
}

/// How `dcop` answers a case. Its wires never fail, unless the case makes some fail or alters a
/// byte on one.
fn solved<R: Threads + Wait + Clock + RandomSource + Net + AllocGlobal + Sync>(
    rt: &R,
    case: &Case,
    source: &mut MemorySource,
    sink: &mut MemorySink,
) -> Result<Status> {
    let alloc = rt.alloc();
    let words = &case.words;
    if case.failing_dials.is_empty() && case.failing_polls.is_empty() && case.alters.is_empty() {
        let mut dialer = SteadyDialer::new();
        return Ok(solve(rt, alloc, words, source, sink, &OpenGate, &mut dialer));
    }
    let mut dialer = MemoryDialer::new(
        case.failing_dials.clone()?,
        case.failing_polls.clone()?,
        case.alters.clone()?,
    );
    Ok(solve(rt, alloc, words, source, sink, &OpenGate, &mut dialer))
}

fn is_as_expected(answer: &Answer, found: &Found) -> bool {
    if answer.status != found.status {
        return false;
    }
    match &answer.output {
        Output::Any => true,
        Output::Whole(bytes) => bytes.as_slice() == found.output.as_slice(),
        Output::Lines(bytes) => has_lines(&found.output, bytes),
    }
}

/// Whether the first text has the lines of the second one, in this order.
fn has_lines(text: &[u8], lines: &[u8]) -> bool {
    let mut expected = lines.split(|byte| *byte == b'\n');
    let mut next = expected.next();
    for line in text.split(|byte| *byte == b'\n') {
        if next == Some(line) {
            next = expected.next();
        }
    }
    next.is_none()
}

fn print_difference<R: Print + AllocGlobal>(rt: &R, answer: &Answer, found: &Found) -> Result<()> {
    println!(rt; "expected: status {}", answer.status)?;
    if let Output::Whole(bytes) | Output::Lines(bytes) = &answer.output {
        print!(rt; "{}", written(rt.alloc(), bytes)?)?;
    }
    println!(rt; "found: status {}", found.status)?;
    print!(rt; "{}", written(rt.alloc(), &found.output)?)?;
    Ok(())
}
