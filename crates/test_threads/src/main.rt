//! Tests of threads, wires and sockets: a round of cells, agents run by workers, nodes over wires
//! that fail, and clients of a server. Prints a line for each row: its name and its count, or that
//! it did not go as the row says.
#![tactic(auto)]

mod gates;
mod host;
mod pair;
mod rows;
mod server;
mod solving;
mod wires;
mod workers;

use std::io;

fn main(rt: HostRuntime) -> io::Result<()> {
    workers::print_rows(&rt)?;
    wires::print_rows(&rt)?;
    server::print_rows(&rt)
}
