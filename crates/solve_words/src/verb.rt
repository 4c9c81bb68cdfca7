//! The first word: the command.

ghost use Rattle.std.specs.Prelude.{◌≡◌};
ghost use Rattle.solve_words.specs.Names.{verb_named};

/// What the first word asks for.
#[derive(Clone, Copy, Debug, PartialEq, Eq)]
pub enum Verb {
    Solve,
    Tree,
    Check,
    Replay,
    Drill,
    Upgrade,
    Edit,
}

impl Verb {
    /// The command with this name; `None` exactly when no command has it.
    pub fn named(word: &str) -> Option<Verb>
        ensures { result ≡ verb_named word.now }
    {
        match word {
            "solve" => Some(Verb::Solve),
            "tree" => Some(Verb::Tree),
            "check" => Some(Verb::Check),
            "replay" => Some(Verb::Replay),
            "drill" => Some(Verb::Drill),
            "upgrade" => Some(Verb::Upgrade),
            "edit" => Some(Verb::Edit),
            _ => None,
        }
    }
}
