//! What a user can ask for.

ghost use Rattle.std.specs.Prelude.{◌≡◌};
ghost use Rattle.solve_words.specs.Names.{choice_named, format_named, yes_or_no};

/// How a problem is solved.
#[derive(Clone, Copy, Debug, PartialEq, Eq)]
pub enum Choice {
    /// Plain search: all assignments are tried.
    Plain,
    /// DPOP (Petcu and Faltings, IJCAI 2005): tables are joined and projected from the leaves of a
    /// pseudotree to its root.
    Dpop,
    /// ADOPT (Modi, Shen, Tambe and Yokoo, Artificial Intelligence 161, 2005): agents search
    /// concurrently, with bounds.
    Adopt,
    /// DPOP if its tables are small enough, and ADOPT otherwise.
    Auto,
    /// DPOP once for each choice of values of some cut variables, for problems whose tables would
    /// be too large.
    Cut,
}

impl Choice {
    /// The method with this name; `None` exactly when no method has it.
    pub(crate) fn named(word: &str) -> Option<Choice>
        ensures { result ≡ choice_named word.now }
    {
        match word {
            "plain" => Some(Choice::Plain),
            "dpop" => Some(Choice::Dpop),
            "adopt" => Some(Choice::Adopt),
            "auto" => Some(Choice::Auto),
            "cut" => Some(Choice::Cut),
            _ => None,
        }
    }
}

/// The text format in which a problem is given.
#[derive(Clone, Copy, Debug, PartialEq, Eq)]
pub enum Format {
    /// The problem text of this product.
    Dcop,
    /// The `wcsp` format of weighted constraint satisfaction problems.
    Wcsp,
}

impl Format {
    /// The format with this name; `None` exactly when no format has it.
    pub(crate) fn named(word: &str) -> Option<Format>
        ensures { result ≡ format_named word.now }
    {
        match word {
            "dcop" => Some(Format::Dcop),
            "wcsp" => Some(Format::Wcsp),
            _ => None,
        }
    }
}

/// Whether this word is `yes` or `no`; `None` exactly when it is neither.
pub(crate) fn yes_or_no(word: &str) -> Option<bool>
    ensures { result ≡ yes_or_no word.now }
{
    match word {
        "yes" => Some(true),
        "no" => Some(false),
        _ => None,
    }
}

/// A command with all of its settings, each given or the default.
#[derive(Clone, Copy, Debug, PartialEq, Eq)]
pub enum Command {
    /// Solve a problem and report.
    Solve {
        /// How it is solved.
        method: Choice,
        /// How many threads the agents share, 1 to 64.
        workers: u32,
        /// How far the cost found may be from the optimum, 0 to 2^62.
        error: u64,
        /// After how many message deliveries the agents are stopped, 0 to 10,000,000.
        budget: u64,
        /// Over how many nodes the agents are distributed, 1 to 8. Nodes are connected by sockets.
        nodes: u32,
        /// Whether the report has a certificate.
        certificate: bool,
        /// The text format of the problem.
        format: Format,
        /// The most cells of a joined table by method cut, 1,024 to 1,048,576.
        cells: u64,
    },
    /// Show the pseudotree of a problem.
    Tree {
        /// How many threads the agents share, 1 to 64.
        workers: u32,
        /// The text format of the problem.
        format: Format,
    },
    /// Check the certificate of a report against its problem.
    Check {
        /// The text format of the problem.
        format: Format,
    },
    /// Play the log of a report again.
    Replay {
        /// How many events are played, 0 to 1,000,000,000; `None` means all.
        after: Option<u64>,
        /// The text format of the problem.
        format: Format,
    },
    /// Make a problem from a seed, solve it and summarise.
    Drill {
        /// How it is solved.
        method: Choice,
        /// How many threads the agents share, 1 to 64.
        workers: u32,
        /// How far the cost found may be from the optimum, 0 to 2^62.
        error: u64,
        /// After how many message deliveries the agents are stopped, 0 to 10,000,000.
        budget: u64,
        /// Over how many nodes the agents are distributed, 1 to 8. Nodes are connected by sockets.
        nodes: u32,
        /// The seed that the problem is made from, a number of at most 19 digits.
        seed: u64,
        /// How many variables it has, 1 to 1,000.
        vars: u32,
        /// How many values a variable has, 1 to 16.
        size: u16,
        /// The most tables that connect a variable to earlier ones, 1 to 8.
        degree: u32,
        /// The greatest cost that a cell may have, 0 to 1,000,000.
        top: u64,
        /// The most cells of a joined table by method cut, 1,024 to 1,048,576.
        cells: u64,
    },
    /// Write a problem again in the newest version of its text.
    Upgrade {
        /// The text format of the problem.
        format: Format,
    },
    /// Change a problem line by line, and solve it again after each batch of changes.
    Edit,
}
