//! What a case file says.

use std::alloc::Global;
use wire_pump::{Alter, PollFail};

/// The program that a case is for.
#[derive(Clone, Copy)]
pub enum Program {
    /// `dcop`
    Dcop,
    /// `dcop_order`
    DcopOrder,
    /// `dcop_search`
    DcopSearch,
    /// `dcop_trace`
    DcopTrace,
}

/// A worked case: what a program is given, and what it has to answer.
#[derive(Drop)]
pub struct Case {
    pub program: Program,
    /// The program's words.
    pub words: Vec<String>,
    /// What the input is joined from, in order.
    pub pieces: Vec<Piece>,
    /// What is altered in the joined input, in order.
    pub changes: Vec<Change>,
    /// The numbers of the reads that fail, counted from 0.
    pub failing_reads: Vec<u64>,
    /// The numbers of the writes that fail, counted from 0; the finish counts as one.
    pub failing_writes: Vec<u64>,
    /// The numbers of the pairs of wires whose dialling fails, counted from 0.
    pub failing_dials: Vec<u64>,
    /// The polls of wires that fail.
    pub failing_polls: Vec<PollFail>,
    /// The bytes that are altered on wires.
    pub alters: Vec<Alter>,
    /// What is expected of the whole input or of prefixes of it.
    pub answers: Vec<Answer>,
}

/// A part of an input.
#[derive(Drop)]
pub enum Piece {
    /// The bytes of a file, or the output that a case expects.
    File(String),
    /// What `dcop_order` without words writes for these bytes.
    Ordered(String),
    /// A text, repeated this many times.
    Text(Vec<u8>, u64),
}

/// A text that the input has exactly once, and its replacement.
#[derive(Drop)]
pub struct Change {
    pub from: Vec<u8>,
    pub to: Vec<u8>,
}

/// What is expected.
#[derive(Drop)]
pub struct Answer {
    /// The first and the last length of the prefixes that this is expected of; `None` for the whole
    /// input.
    pub lengths: Option<(usize, usize)>,
    pub status: u8,
    pub output: Output,
}

/// What is expected of an output.
#[derive(Drop)]
pub enum Output {
    /// Nothing is expected.
    Any,
    /// It is this text.
    Whole(Vec<u8>),
    /// It has the lines of this text, in this order.
    Lines(Vec<u8>),
}

impl Case {
    /// A case that says nothing yet.
    pub fn new(alloc: Global) -> Self {
        Case {
            program: Program::Dcop,
            words: Vec::new(alloc),
            pieces: Vec::new(alloc),
            changes: Vec::new(alloc),
            failing_reads: Vec::new(alloc),
            failing_writes: Vec::new(alloc),
            failing_dials: Vec::new(alloc),
            failing_polls: Vec::new(alloc),
            alters: Vec::new(alloc),
            answers: Vec::new(alloc),
        }
    }
}
