//! What an exchange passes on links of which nothing was drained.

ghost use Rattle.std.specs.Prelude.{◌≡◌, ◌<◌, ◌≤◌, IfOk};
ghost use Rattle.std.specs.List.{All};
ghost use Rattle.dcop_base.specs.Limits.{variable_limit, node_limit};
ghost use Rattle.worker_laws.specs.OneNode.{home as home_of};
ghost use Rattle.tcp_links.specs.Plans.{IsBetween};
ghost use Rattle.tcp_links.specs.Woven.{IsLinkIdle, AreLinksIdle};

use crate::plan::home;
use dcop_base::NoMemory;
use link_records::KeptLink;
use node_exchange::LinkPassing;
use std::alloc::Global;

/// What an exchange passes on each of these links as long as nothing is drained of them.
pub(crate) fn idle_passings(
    alloc: Global,
    kept: &[KeptLink],
    nodes: u32,
    agents: u32,
) -> Result<Vec<LinkPassing>, NoMemory>
    requires few { (agents ≤ variable_limit) × (nodes ≤ node_limit) }
    requires between { All (IsBetween agents nodes) kept.now }
    ensures idle { IfOk result (λ ps. AreLinksIdle (home_of nodes agents) kept.now ps.items) }
{
    let mut passings = Vec::with_capacity(alloc, kept.len())?;
    for link in kept {
        passings.push(idle_passing(alloc, link, nodes, agents))?;
    }
    Ok(passings)
}

/// What an exchange passes on a link of which nothing was drained.
fn idle_passing(alloc: Global, link: &KeptLink, nodes: u32, agents: u32) -> LinkPassing
    requires inside { (link.now.sender < agents) × (link.now.receiver < agents) }
    requires few { (agents ≤ variable_limit) × (nodes ≤ node_limit) }
    ensures { IsLinkIdle (home_of nodes agents) link.now result }
{
    let (from, to) = (link.from(), link.to());
    let from_node = home(from, nodes, agents);
    let to_node = home(to, nodes, agents);
    LinkPassing::new(alloc, (from, to), (from_node, to_node), Vec::new(alloc))
}
