//! The lines of rows.

use anyhow::Result;
use std::io;

/// A row's line: its count, or that it did not go as it says.
pub(crate) fn print_count<R: Print + AllocGlobal>(
    rt: &R,
    name: &str,
    count: Option<u64>,
) -> io::Result<()> {
    match count {
        Some(count) => println!(rt; "{name}: {count}"),
        None => println!(rt; "{name}: otherwise"),
    }
}

/// A row's line: its count, or what did not go as it says.
pub(crate) fn print_row<R: Print + AllocGlobal>(
    rt: &R,
    name: &str,
    row: Result<u64>,
) -> io::Result<()> {
    match row {
        Ok(count) => println!(rt; "{name}: {count}"),
        Err(otherwise) => println!(rt; "{name}: {otherwise}"),
    }
}
