//! The answer to the lines of an edit session.

ghost use Rattle.std.specs.Prelude.{◌≡◌, ◌+◌, ◌<◌, ◌≤◌, length, IfOk};
ghost use Rattle.dcop_base.specs.Limits.{input_limit};
ghost use Rattle.pseudotree.specs.DepthFirst.{dfs};
ghost use Rattle.pseudotree.specs.Pseudotree.{IsPseudotreeOf};
ghost use Rattle.pseudotree.specs.Width.{wide_of};
ghost use Rattle.problem_text.specs.File.{IsFile};
ghost use Rattle.problem_text.specs.Steps.{declared_by};
ghost use Rattle.minimised_problem.specs.Goal.{problem_solved};
ghost use Rattle.solve_report.specs.AnswerText.{HasText};
ghost use Rattle.solve_methods.specs.Dpop.{wide_answer};
ghost use Rattle.solve_methods.specs.Goal.{TellsRight};
ghost use Rattle.solve_edit.specs.Editing.{AnswersEdit, TellsLines};

use crate::running::run_lines;
use crate::stop::Stop;
use dcop_base::NoMemory;
use dpop_agent::Steps;
use edit_session::{OpenFault, Session};
use minimised_problem::ProblemSolved;
use problem_text::{Names, ProblemFile};
use pseudotree::{Tree, Wide, widths};
use solve_report::Answer;
use std::alloc::Global;
use std::marker::Brand;
use std::sync::ledger::{Blank, Ledger};

/// The answer to edit lines on a file: what is too wide in its tree, or otherwise all optima that
/// were requested, or only the first fault. The tree is the depth-first tree of the problem solved
/// for the file. `before` lines precede the text, and lines count from the beginning of the input.
/// The lines before the text and the bytes of the text are together at most 2^28, the most bytes of
/// an input.
///
/// # Errors
///
/// [`NoMemory`] if memory runs out.
pub fn edit_answer(
    alloc: Global,
    file: ProblemFile,
    tree: Tree,
    text: &[u8],
    before: u64,
) -> Result<Answer, NoMemory>
    requires tree { IsPseudotreeOf (problem_solved file) tree }
    requires paths { tree.paths ≡ dfs (problem_solved file) }
    requires few { before + length text.now ≤ input_limit }
    ensures belongs { IfOk result (AnswersEdit (declared_by file) before text.now) }
    ensures right { IfOk result TellsRight }
    ensures told { IfOk result HasText }
{
    counted_answer::<Brand>(alloc, Blank::new(1), file, tree, text, before)
}

/// The same, with steps that are counted by a ledger.
fn counted_answer<L: Ledger>(
    alloc: Global,
    blank: Blank,
    file: ProblemFile,
    tree: Tree,
    text: &[u8],
    before: u64,
) -> Result<Answer, NoMemory>
    requires name { blank.name ≡ L.name }
    requires parts { blank.parts ≡ L.parts }
    requires some { 0 < blank.parts }
    requires tree { IsPseudotreeOf (problem_solved file) tree }
    requires paths { tree.paths ≡ dfs (problem_solved file) }
    requires few { before + length text.now ≤ input_limit }
    ensures belongs { IfOk result (AnswersEdit (declared_by file) before text.now) }
    ensures right { IfOk result TellsRight }
    ensures told { IfOk result HasText }
{
    if let Some(wide) = wide_in(alloc, &file, &tree)? {
        return Ok(too_wide(wide, file.names));
    }
    file_is_whole(&file);
    let session = match Session::open(alloc, file, tree) {
        Ok(session) => session,
        // The tree is not too wide.
        Err(OpenFault::Wide(_)) => unreachable!(),
        Err(OpenFault::NoMemory) => return Err(NoMemory),
    };
    let mut steps = Steps::<L>::new(blank);
    lines_answer(alloc, session, text, before, &mut steps)
}

/// Every file is well formed. Reading a field of the file shows this; the call does no more.
fn file_is_whole(file: &ProblemFile)
    ensures { IsFile file.now }
{
    let _problem = &file.problem;
}

/// What is too wide in the tree of the problem solved for a file, if anything.
fn wide_in(alloc: Global, file: &ProblemFile, tree: &Tree) -> Result<Option<Wide>, NoMemory>
    requires { IsPseudotreeOf (problem_solved file.now) tree.now }
    ensures { IfOk result (λ wide. wide ≡ wide_of (problem_solved file.now) tree.now.paths) }
{
    let solved = ProblemSolved::of(alloc, file)?;
    Ok(widths(tree, solved.problem()))
}

/// The answer to lines in an open session.
fn lines_answer<L: Ledger>(
    alloc: Global,
    session: Session,
    text: &[u8],
    before: u64,
    steps: &mut Steps<L>,
) -> Result<Answer, NoMemory>
    requires whole { IsFile session.state.file }
    requires few { before + length text.now ≤ input_limit }
    ensures lines { IfOk result (TellsLines session.state before text.now) }
    ensures right { IfOk result TellsRight }
    ensures told { IfOk result HasText }
{
    let mut session = session;
    match run_lines(alloc, &mut session, text, before, steps) {
        Ok(answers) => Ok(Answer::Edits {
            answers,
            file: session.into_file(),
        }),
        Err(Stop::Refused { line, kind }) => Ok(Answer::EditText {
            line,
            kind: kind.number(),
        }),
        Err(Stop::NoMemory) => Err(NoMemory),
    }
}

/// The answer if this is too wide in a tree of the variables with these names.
fn too_wide(wide: Wide, names: Names) -> Answer
    ensures told { result ≡ wide_answer names wide }
    ensures right { TellsRight result }
{
    match wide {
        Wide::Agent { var, cells } => Answer::WideAgent { var, cells, names },
        Wide::Total { cells } => Answer::WideTotal { cells },
    }
}
