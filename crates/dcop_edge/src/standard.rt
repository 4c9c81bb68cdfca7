//! The real source and sink, over std's readers and writers.

ghost use Rattle.std.specs.Prelude.{◌≡◌, ◌<◌, ◌≤◌, ◌+◌, ◌++◌, None, length, take, drop, IfOk, OnErr, IfSome, MatchOption};

use crate::counts::ReadCounts;
use crate::fault::{Failed, ReadFault};
use crate::sink::Sink;
use crate::source::Source;
use std::alloc::AllocError;
use std::io::{Error, ErrorKind, Read, Write};

/// How often a call that a signal interrupts is tried before it counts as a fault.
const MAX_TRIES: u32 = 1_000_000;

/// The most bytes of one read.
const BLOCK: usize = 65_536;

/// A reader of std as a source: a file, a socket, standard input. Its bytes are unknown to
/// contracts. A read that the reader refuses is a fault.
#[derive(Drop)]
pub struct StdSource<R> {
    reader: R,
    faults: u64,
    gave: ReadCounts,
}

impl<R: Read> StdSource<R> {
    /// A source that reads from this reader.
    pub fn new(reader: R) -> Self {
        StdSource {
            reader,
            faults: 0,
            gave: ReadCounts::new(),
        }
    }
}

impl<R: Read> Source for StdSource<R> {
    ghost left = { λ _. None };

    ghost faults = { λ s. s.faults };

    ghost gave = { λ s. s.gave.counts };

    // std does not say what a reader leaves in the rest of a buffer, so it gets one of its own.
    fn read(&mut self, into: &mut [u8]) -> Result<usize, Failed> {
        let mut block = [0; BLOCK];
        let room = into.len().min(BLOCK);
        match read_again(&mut self.reader, &mut block[..room]) {
            Some(count) => {
                into[..count].copy_from_slice(&block[..count]);
                self.gave = self.gave.and(count);
                Ok(count)
            }
            None => {
                self.gave = self.gave.and(0);
                self.faults = self.faults.saturating_add(1);
                Err(Failed)
            }
        }
    }

    fn read_behind(&mut self, bytes: &mut Vec<u8>, most: usize) -> Result<usize, ReadFault> {
        match append_again(&mut self.reader, bytes, most.min(BLOCK)) {
            Ok(Some(count)) => {
                self.gave = self.gave.and(count);
                Ok(count)
            }
            Ok(None) => {
                self.gave = self.gave.and(0);
                self.faults = self.faults.saturating_add(1);
                Err(ReadFault::Failed)
            }
            Err(refused) => {
                self.gave = self.gave.and(0);
                Err(ReadFault::from(refused))
            }
        }
    }
}

/// A writer of std as a sink: a file, a socket, standard output. Its bytes are unknown to
/// contracts. A write or flush that the writer refuses is a fault, and so is a write that takes
/// nothing.
#[derive(Drop)]
pub struct StdSink<W> {
    writer: W,
    finished: bool,
    faults: u64,
}

impl<W: Write> StdSink<W> {
    /// A sink that writes to this writer.
    pub fn new(writer: W) -> Self {
        StdSink {
            writer,
            finished: false,
            faults: 0,
        }
    }
}

impl<W: Write> Sink for StdSink<W> {
    ghost held = { λ _. None };

    ghost finished = { λ s. s.finished };

    ghost faults = { λ s. s.faults };

    fn write(&mut self, bytes: &[u8]) -> Result<usize, Failed> {
        self.finished = false;
        match write_again(&mut self.writer, bytes) {
            Some(count) => Ok(count),
            None => {
                self.faults = self.faults.saturating_add(1);
                Err(Failed)
            }
        }
    }

    fn finish(&mut self) -> Result<(), Failed> {
        if flush_again(&mut self.writer) {
            self.finished = true;
            return Ok(());
        }
        self.faults = self.faults.saturating_add(1);
        Err(Failed)
    }
}

// One read, tried again if a signal interrupts it; `None` if it is refused.
fn read_again<R: Read>(reader: &mut R, into: &mut [u8]) -> Option<usize>
    ensures { IfSome result (λ count. count ≤ length into.old) }
{
    for _ in 0..MAX_TRIES {
        match reader.read(into) {
            Ok(count) => return Some(count),
            Err(error) => {
                if !is_interrupted(&error) {
                    return None;
                }
            }
        }
    }
    None
}

// One read of at most `most` bytes to the end of `bytes`. `None` if it is refused; `bytes` is then
// as it was.
fn append_again<R: Read>(
    reader: &mut R,
    bytes: &mut Vec<u8>,
    most: usize,
) -> Result<Option<usize>, AllocError>
    requires { most ≤ 65536 }
    ensures found { IfOk result (λ found. MatchOption found (bytes.new.items ≡ bytes.old.items)
        (λ count. (count ≤ most) × (length bytes.new.items ≡ length bytes.old.items + count)
        × (bytes.new.items ≡ bytes.old.items ++ drop (length bytes.old.items) bytes.new.items))) }
    ensures same { OnErr result (bytes.new.items ≡ bytes.old.items) }
{
    let held = bytes.as_slice().len();
    bytes.resize(held + most, 0)?;
    let found = read_tail(reader, bytes.as_mut_slice(), held);
    bytes.truncate(held + found.unwrap_or(0));
    Ok(found)
}

// One read into the part of `bytes` after the first `held` ones, which stay; `None` if it is
// refused.
fn read_tail<R: Read>(reader: &mut R, bytes: &mut [u8], held: usize) -> Option<usize>
    requires { held ≤ length bytes.old }
    ensures within { IfSome result (λ count. held + count ≤ length bytes.old) }
    ensures size { length bytes.new ≡ length bytes.old }
    ensures held { take held bytes.new ≡ take held bytes.old }
{
    let (_, room) = bytes.split_at_mut(held);
    read_again(reader, room)
}

// One write, tried again if a signal interrupts it; `None` if it is refused or takes nothing.
fn write_again<W: Write>(writer: &mut W, bytes: &[u8]) -> Option<usize>
    ensures within { IfSome result (λ count. count ≤ length bytes.now) }
    ensures some { IfSome result (λ count. 0 < length bytes.now → 0 < count) }
{
    if bytes.is_empty() {
        return Some(0);
    }
    for _ in 0..MAX_TRIES {
        match writer.write(bytes) {
            Ok(0) => return None,
            Ok(count) => return Some(count),
            Err(error) => {
                if !is_interrupted(&error) {
                    return None;
                }
            }
        }
    }
    None
}

// One flush, tried again if a signal interrupts it. Returns whether it was done.
fn flush_again<W: Write>(writer: &mut W) -> bool {
    for _ in 0..MAX_TRIES {
        match writer.flush() {
            Ok(()) => return true,
            Err(error) => {
                if !is_interrupted(&error) {
                    return false;
                }
            }
        }
    }
    false
}

fn is_interrupted(error: &Error) -> bool {
    error.kind() == ErrorKind::Interrupted
}
