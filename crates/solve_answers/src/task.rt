//! The tasks of commands.

ghost use Rattle.std.specs.Prelude.{◌≡◌, ◌<◌, ◌≤◌, IfSome};
ghost use Rattle.dcop_base.specs.Limits.{amount_limit, budget_limit, joined_limit, node_limit, size_limit};
ghost use Rattle.solve_answers.specs.Nodes.{nodes_of};
ghost use Rattle.solve_words.specs.Ranges.{IsInRange};
ghost use Rattle.solve_answers.specs.Served.{task_by, task_of, IsFileTaskInRange, IsTaskInRange};

use solve_words::{Choice, Command, Format};

/// The task of a command on an input.
#[derive(Clone, Copy, Debug, PartialEq, Eq)]
pub enum Task {
    /// A task on the file of a problem in this format.
    File { format: Format, task: FileTask },
    /// Check the report that follows a problem in this format.
    Check { format: Format },
    /// Replay the first `after` events of the log of such a report, or all.
    Replay { format: Format, after: Option<u64> },
    /// Answer the lines of an edit session that follow a problem.
    Edit,
}

/// A task on the file of a problem.
#[derive(Clone, Copy, Debug, PartialEq, Eq)]
pub enum FileTask {
    /// Solve the problem by the plain method.
    Plain,
    /// Solve the problem by DPOP, and certify the answer or not.
    Dpop {
        certified: bool,
    },
    /// Solve the problem by ADOPT, for a requested error, with a budget of deliveries, and certify
    /// the answer by the log of the run or not.
    Adopt {
        error: u64,
        budget: u64,
        certified: bool,
    },
    /// Solve the problem as by DPOP if its tables fit, and otherwise as by ADOPT.
    Auto {
        error: u64,
        budget: u64,
        certified: bool,
    },
    /// Solve the problem by DPOP on the slices of a cut, so that no joined table has more than
    /// `limit` cells. Certify the answer by the tables of all turns or not.
    Cut {
        limit: u64,
        certified: bool,
    },
    /// Find the depth-first tree of the problem.
    Tree,
    /// Write the problem again in the newest version of its text.
    Upgrade,
}

impl FileTask {
    /// The task of a method on a file, with or without a certificate. `limit` is that of a cut.
    pub(crate) fn by(
        method: Choice,
        error: u64,
        budget: u64,
        certified: bool,
        limit: u64,
    ) -> FileTask
        requires error { error ≤ amount_limit }
        requires budget { budget ≤ budget_limit }
        requires least { size_limit ≤ limit }
        requires most { limit ≤ joined_limit }
        ensures same { result ≡ task_by method error budget certified limit }
        ensures range { IsFileTaskInRange result }
    {
        match method {
            Choice::Plain => FileTask::Plain,
            Choice::Dpop => FileTask::Dpop { certified },
            Choice::Adopt => FileTask::Adopt {
                error,
                budget,
                certified,
            },
            Choice::Auto => FileTask::Auto {
                error,
                budget,
                certified,
            },
            Choice::Cut => FileTask::Cut { limit, certified },
        }
    }
}

impl Task {
    /// The task of a command on an input; `None` exactly for a drill, which reads nothing.
    pub fn of(command: &Command) -> Option<Task>
        requires { IsInRange command.now }
        ensures same { result ≡ task_of command.now }
        ensures range { IfSome result IsTaskInRange }
    {
        match *command {
            Command::Solve {
                method,
                error,
                budget,
                certificate,
                format,
                cells,
                ..
            } => {
                let task = FileTask::by(method, error, budget, certificate, cells);
                Some(Task::on_file(format, task))
            }
            Command::Tree { format, .. } => Some(Task::on_file(format, FileTask::Tree)),
            Command::Check { format } => Some(Task::Check { format }),
            Command::Replay { after, format } => Some(Task::Replay { format, after }),
            Command::Upgrade { format } => Some(Task::on_file(format, FileTask::Upgrade)),
            Command::Edit => Some(Task::Edit),
            _ => None,
        }
    }

    /// A task on a file, as a task on an input.
    fn on_file(format: Format, task: FileTask) -> Task
        ensures { result ≡ Task.File format task }
    {
        Task::File { format, task }
    }
}

/// How many threads the agents of a command share.
pub(crate) fn workers_of(command: &Command) -> u32
    requires { IsInRange command.now }
    ensures { 0 < result }
{
    match *command {
        Command::Solve { workers, .. }
        | Command::Tree { workers, .. }
        | Command::Drill { workers, .. } => workers,
        _ => 1,
    }
}

/// How many nodes the agents of a command are spread over.
pub(crate) fn nodes_of(command: &Command) -> u32
    requires { IsInRange command.now }
    ensures few { (0 < result) × (result ≤ node_limit) }
    ensures same { result ≡ nodes_of command.now }
{
    match *command {
        Command::Solve { nodes, .. } | Command::Drill { nodes, .. } => nodes,
        _ => 1,
    }
}
