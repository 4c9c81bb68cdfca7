//! The resources that run agents.

ghost use Rattle.std.specs.Prelude.{◌<◌};

/// The resources that run agents.
#[derive(Drop)]
pub(crate) struct Crew<'a, R, G> {
    /// The source of threads.
    pub(crate) rt: &'a R,
    /// The gate that each visit of an agent passes.
    pub(crate) gate: &'a G,
    /// How many threads the agents share.
    pub(crate) workers: u32,
    ghost some: { 0 < workers },
}
