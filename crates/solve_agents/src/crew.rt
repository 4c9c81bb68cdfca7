//! The resources that run agents.

ghost use Rattle.std.specs.Prelude.{◌<◌, ◌≤◌};
ghost use Rattle.dcop_base.specs.Limits.{node_limit};

/// The resources that run agents.
#[derive(Drop)]
pub struct Crew<'a, R, G> {
    /// The source of threads.
    pub rt: &'a R,
    /// The gate that each visit of an agent passes.
    pub gate: &'a G,
    /// How many threads the agents share, at least 1.
    pub workers: u32,
    /// Over how many nodes the agents are distributed, if the request allows several: 1 to 8.
    pub nodes: u32,
    ghost some: { 0 < workers },
    ghost few: { (0 < nodes) × (nodes ≤ node_limit) },
}
