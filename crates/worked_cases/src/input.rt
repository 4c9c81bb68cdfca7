//! The input of a case.

use crate::case::{Case, Change, Output, Piece};
use crate::parse::read_case;
use anyhow::{Result, bail, ensure};
use dcop_edge::{MemorySink, MemorySource};
use order_top::order;
use std::alloc::Global;
use std::fs;
use std::rt::Files;

/// The case in this file.
pub fn case_at<R: Files + AllocGlobal>(rt: &R, path: &str) -> Result<Case> {
    let text = fs::read_to_string(rt, path)?;
    read_case(rt.alloc(), text.as_str())
}

/// The whole input of a case.
pub fn input_of<R: Files + AllocGlobal>(rt: &R, case: &Case) -> Result<Vec<u8>> {
    let mut input = Vec::new(rt.alloc());
    for piece in case.pieces.iter() {
        match piece {
            Piece::File(name) => input.append(&mut file_of(rt, name.as_str())?)?,
            Piece::Ordered(name) => {
                let text = file_of(rt, name.as_str())?;
                input.append(&mut ordered(rt.alloc(), text)?)?;
            }
            Piece::Text(bytes, times) => {
                for _ in 0..*times {
                    input.extend_from_slice(bytes)?;
                }
            }
        }
    }
    for change in case.changes.iter() {
        input = changed(rt.alloc(), &input, change)?;
    }
    Ok(input)
}

/// The bytes of a file, or the first output that a case expects.
fn file_of<R: Files + AllocGlobal>(rt: &R, path: &str) -> Result<Vec<u8>> {
    if !path.ends_with(".case") {
        return Ok(fs::read(rt, path)?);
    }
    for answer in case_at(rt, path)?.answers {
        if let Output::Whole(bytes) = answer.output {
            return Ok(bytes);
        }
    }
    bail!("{path} has no output")
}

/// What `dcop_order` writes for this text.
fn ordered(alloc: Global, text: Vec<u8>) -> Result<Vec<u8>> {
    let mut source = MemorySource::new(text, Vec::new(alloc));
    let mut sink = MemorySink::new(alloc, Vec::new(alloc));
    let status = order(alloc, &[], &mut source, &mut sink);
    ensure!(status.code() == 0, "dcop_order refuses the text");
    Ok(sink.bytes().to_vec(alloc)?)
}

/// The input with one text replaced by another; it has to have that text exactly once.
fn changed(alloc: Global, input: &[u8], change: &Change) -> Result<Vec<u8>> {
    let Some((before, behind)) = split_once(input, &change.from) else {
        bail!("what is replaced is not there");
    };
    if split_once(behind, &change.from).is_some() {
        bail!("what is replaced stands there twice");
    }
    let mut bytes = before.to_vec(alloc)?;
    bytes.extend_from_slice(&change.to)?;
    bytes.extend_from_slice(behind)?;
    Ok(bytes)
}

/// What comes before and after the first place of a text.
fn split_once<'a>(bytes: &'a [u8], text: &[u8]) -> Option<(&'a [u8], &'a [u8])> {
    for place in 0..bytes.len() {
        let (before, from) = bytes.split_at(place);
        if let Some(behind) = from.strip_prefix(text) {
            return Some((before, behind));
        }
    }
    None
}
