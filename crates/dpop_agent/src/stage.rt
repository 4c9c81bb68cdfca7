//! The stages of an agent.

ghost use Rattle.std.specs.Prelude.{◌≡◌};
ghost use Rattle.dpop_agent.specs.Stage.{phase_at};

/// The stage of an agent.
#[derive(Clone, Copy, Debug)]
pub(crate) enum Stage {
    /// The agent has not started.
    Waiting,
    /// It has started, and has not taken its value yet.
    Working,
    /// It has taken its value.
    Ended,
    /// Memory ran out.
    Failed,
}

/// Whether an agent at this stage has taken its value.
pub(crate) fn has_ended(stage: Stage) -> bool
    ensures { result ≡ (phase_at stage).ended }
{
    matches!(stage, Stage::Ended)
}
