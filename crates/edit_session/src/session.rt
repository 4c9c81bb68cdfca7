//! Sessions of edits.

ghost use Rattle.std.specs.Prelude.{◌≡◌, ℕ, ◌+◌, ◌<◌, ◌≤◌, None, Some, All, IfOk, IfErr, OnOk, OnErr, MatchResult, count_by, length, nat_lt, replicate};
ghost use Rattle.dcop_base.specs.Limits.{cost_limit};
ghost use Rattle.dcop_base.specs.Problem.{Dcop};
ghost use Rattle.pseudotree.specs.DepthFirst.{dfs};
ghost use Rattle.pseudotree.specs.Pseudotree.{IsPseudotreeOf};
ghost use Rattle.pseudotree.specs.Width.{wide_of};
ghost use Rattle.minimised_problem.specs.Goal.{problem_solved};
ghost use Rattle.edit_session.specs.Faults.{IsEditFaultOf, IsReplacement, set_fault, fill_fault, sum_fault, cells_set};
ghost use Rattle.edit_session.specs.Session.{HoldsOthers, IsOpenFault, opened_session, or_own, turned_for};
ghost use Rattle.edit_session.specs.State.{IsAnswerNow, answered, edited, opened, touched_cells};

use crate::answering::answer_with;
use crate::edit::{file_is_whole, fill_cells, set_cells};
use crate::fault::{OpenFault, SetFault};
use crate::law::edits_leave_others;
use crate::replacing::replace_cells;
use dcop_base::{CellList, NoMemory, Problem, problem_is_whole};
use dcop_optimum::{top_sum, turn};
use dpop_agent::{KeptList, Made, Steps};
use problem_text::{Edited, Goal, ProblemFile};
use pseudotree::{Tree, depth_first_trees_are_linked, widths};
use std::alloc::Global;
use std::marker::Model;
use std::sync::ledger::Ledger;

/// A problem whose tables may be edited, with the DPOP tables of each agent that no edit has
/// touched since the last answer.
///
/// Contracts see the current file, which agents are touched, and what is kept of each agent.
#[derive(Debug, Drop)]
pub struct Session {
    alloc: Global,
    file: ProblemFile,
    /// The turned problem, for goal max.
    turned: Option<Problem>,
    /// The sum of the tables' greatest cells.
    top: u64,
    tree: Tree,
    touched: Vec<bool>,
    kept: KeptList,
}

impl Model for Session {
    ghost use Rattle.edit_session.specs.Session.{OpenSession, IsSession};

    ghost Value = { OpenSession };

    ghost view = { λ s. record {
      state = record { file = s.file; touched = s.touched.items };
      kept = s.kept.items;
    } };

    ghost invariant = { λ s. IsSession s.file s.turned s.top s.tree s.touched.items s.kept.items };
}

impl Session {
    /// Opens a session on this file, whose agents work on this tree. All agents are touched.
    ///
    /// The tree is the depth-first tree of the problem solved for the file, which no edit changes.
    /// The file and the tree are consumed even if they are refused.
    ///
    /// # Errors
    ///
    /// [`OpenFault::Wide`] if the tree is too wide, as [`widths`] reports; [`OpenFault::NoMemory`]
    /// if memory runs out.
    pub fn open(alloc: Global, file: ProblemFile, tree: Tree) -> Result<Session, OpenFault>
        requires tree { IsPseudotreeOf (problem_solved file) tree }
        requires paths { tree.paths ≡ dfs (problem_solved file) }
        ensures opened { IfOk result (λ session. session ≡ opened_session file) }
        ensures fits { OnOk result (wide_of (problem_solved file) (dfs (problem_solved file)) ≡ None) }
        ensures fault { IfErr result (IsOpenFault (problem_solved file)) }
    {
        let turned = turned_for(alloc, &file)?;
        if let Some(wide) = widths(&tree, solved_of(&file, &turned)) {
            return Err(OpenFault::Wide(wide));
        }
        let problem = &file.problem;
        let count = problem.sizes.as_slice().len();
        let top = top_sum(problem);
        let touched = vec![in alloc; true; count]?;
        let kept = nothing_kept(alloc, count)?;
        Ok(Session {
            alloc,
            file,
            turned,
            top,
            tree,
            touched,
            kept,
        })
    }

    /// Sets the cost of a cell of a table. Tables count from 0 in the order of the file. Cells
    /// count from 0, and the last variable varies fastest. The time is proportional to the table's
    /// cells.
    ///
    /// # Errors
    ///
    /// The first fault of the edit, a [`SetFault`]. The session is then unchanged.
    pub fn set(&mut self, table: u64, cell: u64, cost: u64) -> Result<(), SetFault>
        ensures { let p = self.old.state.file.problem in
            let fault = set_fault p table cell cost in
            let cells = cells_set p.tables table cell cost in
            MatchResult result
            (λ _. (fault ≡ None) × (self.new
            ≡ record { state = edited self.old.state table cells; kept = self.old.kept }))
            (λ e. IsEditFaultOf fault e × (self.new ≡ self.old)) }
    {
        let cells = set_cells(self.alloc, &self.file, table, cell, cost)?;
        self.replace(table as usize, cells)
    }

    /// Replaces all cells of a table. Tables count from 0 in the order of the file. The time is
    /// proportional to the table's cells.
    ///
    /// # Errors
    ///
    /// The first fault of the edit, a [`SetFault`]. The session is then unchanged.
    pub fn fill(&mut self, table: u64, cells: &CellList) -> Result<(), SetFault>
        ensures { let fault = fill_fault self.old.state.file.problem table cells.now in
            MatchResult result
            (λ _. (fault ≡ None) × (self.new
            ≡ record { state = edited self.old.state table cells.now; kept = self.old.kept }))
            (λ e. IsEditFaultOf fault e × (self.new ≡ self.old)) }
    {
        let cells = fill_cells(self.alloc, &self.file, table, cells)?;
        self.replace(table as usize, cells)
    }

    /// The optimum of the current problem, and how many agents were touched, so that their tables
    /// are made again. Afterwards no agent is touched. The steps rise by the cells of the touched
    /// agents' joined tables.
    ///
    /// # Errors
    ///
    /// [`NoMemory`] if memory runs out. The problem is then unchanged, the same agents are touched,
    /// and the steps have risen by at most that number.
    pub fn answer<L: Ledger>(&mut self, steps: &mut Steps<L>) -> Result<Edited, NoMemory>
        ensures answer { IfOk result (IsAnswerNow self.old.state) }
        ensures answered { OnOk result (self.new.state ≡ answered self.old.state) }
        ensures same { OnErr result (self.new.state ≡ self.old.state) }
        ensures counted { OnOk result (steps.new ≡ steps.old + touched_cells self.old.state) }
        ensures rises { steps.old ≤ steps.new }
        ensures within { steps.new ≤ steps.old + touched_cells self.old.state }
    {
        depth_first_trees_are_linked();
        let problem = solved_of(&self.file, &self.turned);
        problem_is_whole(problem);
        answer_with(
            self.alloc,
            &self.file,
            problem,
            &self.tree,
            &mut self.touched,
            &mut self.kept,
            steps,
        )
    }

    /// The session has, for the current problem, the DPOP tables of each agent that is not touched,
    /// and of the descendants of such an agent. Reading a field of the session shows this; the call
    /// does no more.
    pub fn holds_others(&self)
        ensures { HoldsOthers self.now }
    {
        let _top = self.top;
    }

    /// The current file.
    pub fn into_file(self) -> ProblemFile
        ensures { result ≡ self.state.file }
    {
        self.file
    }

    /// Replaces the cells of a table, and touches the agents on the path from its deepest variable
    /// to the root.
    fn replace(&mut self, table: usize, cells: Vec<u64>) -> Result<(), SetFault>
        requires { IsReplacement self.old.state.file.problem.tables table cells.items }
        ensures { let fault = sum_fault self.old.state.file.problem table cells.items in
            MatchResult result
            (λ _. (fault ≡ None) × (self.new
            ≡ record { state = edited self.old.state table cells.items; kept = self.old.kept }))
            (λ e. IsEditFaultOf fault e × (self.new ≡ self.old)) }
    {
        edits_leave_others();
        file_is_whole(&self.file);
        let top = replace_cells(
            self.alloc,
            &mut self.file,
            &mut self.turned,
            self.top,
            &self.tree,
            &mut self.touched,
            table,
            cells,
        )?;
        self.top = top;
        Ok(())
    }
}

/// The turned problem, if it is the one that is solved for a file.
fn turned_for(alloc: Global, file: &ProblemFile) -> Result<Option<Problem>, NoMemory>
    ensures { IfOk result (λ turned. turned ≡ turned_for file.now.goal file.now.problem) }
{
    match file.goal {
        Goal::Min => Ok(None),
        Goal::Max => Ok(Some(turn(alloc, &file.problem)?)),
    }
}

/// The problem that is solved for a file: its own problem, or the turned one.
pub(crate) fn solved_of<'a>(file: &'a ProblemFile, turned: &'a Option<Problem>) -> &'a Problem
    requires { turned.now ≡ turned_for file.now.goal file.now.problem }
    ensures { result.now ≡ problem_solved file.now }
{
    or_own(&file.problem, turned)
}

/// A problem, or the turned problem that is solved instead.
fn or_own<'a>(problem: &'a Problem, turned: &'a Option<Problem>) -> &'a Problem
    ensures { result.now ≡ or_own problem.now turned.now }
{
    match turned {
        Some(turned) => turned,
        None => problem,
    }
}

/// Nothing kept, for `count` agents.
fn nothing_kept(alloc: Global, count: usize) -> Result<KeptList, NoMemory>
    ensures { IfOk result (λ kept. kept.items ≡ replicate count None) }
{
    let mut kept: Vec<Option<Made>> = Vec::with_capacity(alloc, count)?;
    for _agent in 0..count {
        kept.push(None)?;
    }
    Ok(kept)
}
