//! A problem with numbered names.

use dcop_base::Problem;
use problem_text::{ProblemFile, ReadFile, read_problem, write_problem};
use std::alloc::Global;
use std::process::Abort;
use std::test::Fail;

/// The problem of a file.
fn problem_of(file: ProblemFile) -> Problem {
    let ProblemFile {
        version: _,
        goal: _,
        names: _,
        labels: _,
        problem,
    } = file;
    problem
}

// Checks that the problem of this text is written with numbered names as that text.
fn see_numbered(rt: &impl Abort, alloc: Global, text: &[u8], want: &[u8]) -> Result<(), Fail> {
    let ReadFile { file, used: _ } = read_problem(alloc, text)?;
    let file = ProblemFile::numbered(alloc, problem_of(file))?;
    let written = write_problem(alloc, &file)?;
    assert!(rt; written.as_slice() == want);
    Ok(())
}

#[test]
fn names_are_numbered(rt: HostRuntime) -> Result<(), Fail> {
    let text = b"dcop 2\nvar x 2\nvar y 1\ntable y x : 0 10\nend\n";
    let want = b"dcop 1\nvar v0 2\nvar v1 1\ntable v1 v0 : 0 10\nend\n";
    see_numbered(&rt, rt.alloc(), text, want)
}
