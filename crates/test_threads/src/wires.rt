//! The rows of wires: bytes pumped over wires in memory and over sockets, and the pair of agents
//! solved in two nodes: over sockets; and over wires in memory, with one poll failing or one byte
//! altered, in turn for each poll and each byte.

mod answers;
mod dialers;
mod faults;
mod pumps;
mod texts;

use crate::host::Host;
use crate::rows::{print_count, print_row};
use std::io;
use tcp_wire::TcpDialer;
use wire_pump::SteadyDialer;

/// Prints the rows.
pub(crate) fn print_rows<R: Host + Print>(rt: &R) -> io::Result<()> {
    print_pumps(rt)?;
    print_nodes(rt)
}

// Prints the rows of pumps.
fn print_pumps<R: Host + Print>(rt: &R) -> io::Result<()> {
    print_count(
        rt,
        "pump-both-ways, polls until ready",
        pumps::both_ways(rt),
    )?;
    print_count(
        rt,
        "unjoined-ends, polls that wait",
        pumps::unjoined_ends(rt),
    )?;
    print_count(
        rt,
        "failing-polls, of the first end",
        pumps::failing_polls(rt, true),
    )?;
    print_count(
        rt,
        "failing-polls, of the second end",
        pumps::failing_polls(rt, false),
    )?;
    print_count(
        rt,
        "bytes each way over steady wires",
        pumps::mebibyte(rt, &mut SteadyDialer::new()),
    )?;
    print_count(
        rt,
        "bytes each way over sockets",
        pumps::mebibyte(rt, &mut TcpDialer::new()),
    )
}

// Prints the rows of two nodes.
fn print_nodes<R: Host + Print>(rt: &R) -> io::Result<()> {
    print_row(rt, "pair-two-nodes, over sockets", faults::over_sockets(rt))?;
    print_row(
        rt,
        "failing-polls, of the first end",
        faults::failing_polls(rt, true),
    )?;
    print_row(
        rt,
        "failing-polls, of the second end",
        faults::failing_polls(rt, false),
    )?;
    print_row(
        rt,
        "altered-bytes, from the first end",
        faults::altered_bytes(rt, true),
    )?;
    print_row(
        rt,
        "altered-bytes, from the second end",
        faults::altered_bytes(rt, false),
    )
}
