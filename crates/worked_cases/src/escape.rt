//! Texts as a case file writes them: `\r`, `\n`, `\\`, `\xHH` for any byte, and a `\` at the end of
//! a line whose text does not end with LF there.

use anyhow::{Result, bail};
use std::alloc::{AllocError, Global};

/// The state of a reader of escapes.
#[derive(Clone, Copy)]
enum At {
    Plain,
    Backslash,
    FirstDigit,
    SecondDigit(u8),
}

/// Adds the bytes of a text that is written with escapes. Gives whether it ends with a lone `\`.
pub fn add_escaped(bytes: &mut Vec<u8>, written: &str) -> Result<bool> {
    let mut at = At::Plain;
    for byte in written.as_bytes() {
        at = match (at, *byte) {
            (At::Plain, b'\\') => At::Backslash,
            (At::Backslash, b'x') => At::FirstDigit,
            (At::FirstDigit, digit) => At::SecondDigit(digit_of(digit)?),
            (state, byte) => {
                bytes.push(one_byte(state, byte)?)?;
                At::Plain
            }
        };
    }
    match at {
        At::Plain => Ok(false),
        At::Backslash => Ok(true),
        _ => bail!("an escape is cut off"),
    }
}

/// The byte that ends an escape, or a plain one.
fn one_byte(at: At, byte: u8) -> Result<u8> {
    match (at, byte) {
        (At::Plain, byte) => Ok(byte),
        (At::SecondDigit(high), digit) => Ok((high << 4) | digit_of(digit)?),
        (_, b'n') => Ok(b'\n'),
        (_, b'r') => Ok(b'\r'),
        (_, b'\\') => Ok(b'\\'),
        _ => bail!("no such escape"),
    }
}

/// The value of a hexadecimal digit.
fn digit_of(byte: u8) -> Result<u8> {
    match byte {
        b'0'..=b'9' => Ok(byte - b'0'),
        b'a'..=b'f' => Ok(byte - b'a' + 10),
        _ => bail!("no hexadecimal digit"),
    }
}

/// A text as a case file writes it.
pub fn written(alloc: Global, bytes: &[u8]) -> Result<String, AllocError> {
    let mut text = String::new(alloc);
    for line in bytes.split_inclusive(|byte| *byte == b'\n') {
        text.push_str("| ")?;
        for byte in line {
            match *byte {
                b'\n' => {}
                b'\r' => text.push_str("\\r")?,
                b'\\' => text.push_str("\\\\")?,
                b' '..=b'~' => text.push(*byte as char)?,
                odd => write!(text, "\\x{odd:02x}")?,
            }
        }
        text.push_str(if line.ends_with(b"\n") { "\n" } else { "\\\n" })?;
    }
    Ok(text)
}
