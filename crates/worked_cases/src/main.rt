//! Runs the worked cases through [`solve_top::solve`], [`order_top::order`], [`search_top::search`]
//! or [`trace_top::trace`]. Prints each answer that differs from what its case says, then how many
//! cases there are and how many runs were made.
//!
//! A case is a text file `cases/NAME.case` in the folder that the program runs in, which is `data`.
//! The crate's README.md says how to write one.
#![tactic(auto)]

mod case;
mod escape;
mod input;
mod outcome;
mod parse;

use anyhow::Result;
use outcome::Tally;
use std::fs;
use std::process::ExitCode;
use std::rt::Files;

fn main(rt: HostRuntime) -> Result<ExitCode> {
    let names = case_names(&rt)?;
    let mut tally = Tally::default();
    for name in names.iter() {
        if let Err(error) = outcome::run_case(&rt, name.as_str(), &mut tally) {
            println!(rt; "{name}: {error}")?;
            tally.count_different();
        }
    }
    println!(rt; "{} cases, {} runs", names.len(), tally.runs)?;
    if tally.differ > 0 {
        println!(rt; "{} differ", tally.differ)?;
        return Ok(ExitCode::FAILURE);
    }
    Ok(ExitCode::SUCCESS)
}

/// The names of all cases, in order.
fn case_names<R: Files + AllocGlobal + Clone + Drop>(rt: &R) -> Result<Vec<String>> {
    let mut names = Vec::new(rt.alloc());
    for entry in fs::read_dir(rt, "cases")? {
        let entry = entry?;
        if let Some(name) = entry.file_name().strip_suffix(".case") {
            names.push(String::from_str(rt.alloc(), name)?)?;
        }
    }
    names.sort()?;
    Ok(names)
}
