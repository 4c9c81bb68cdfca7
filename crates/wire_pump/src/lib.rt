//! Wires, which code gets as arguments: ends of streams of bytes in both directions, which are
//! polled; and a pump that sends a list of bytes at each of two wires.
//!
//! A [`Wire`] is one end. For proofs alone, it tells the bytes that it has sent and received, if
//! they are known. It counts the bytes that it has sent and received, how often a write waited, how
//! often a read waited, and how often a call failed. A poll is pending only if its count of waits
//! rose and the task is registered. A count that reaches 2^64 - 1 stays there: from then on "rose"
//! says nothing.
//!
//! Two wires can be joined. [`Wire::beside`] then shows that what each has received is a prefix of
//! what the other has sent.
//!
//! A [`Dialer`] makes pairs of wires and drives a future over them. Two dialers work in memory:
//! [`SteadyDialer`] never fails, and [`MemoryDialer`] fails at chosen calls and changes chosen
//! bytes. Both hold each direction in rings of 4,096 bytes.
//!
//! A [`Pump`] is a future over two wires. It sends one list at each end, and receives at the other
//! end as many bytes. Neither end waits until the other is done. When the pump is done, each side
//! has as many bytes as were given to the other, and the wires have counted them: as many sent and
//! as many received, if the counts are below 2^64 - 1. If the wires tell their bytes, exactly the
//! given lists were sent. If the wires are joined, and each had received all that the other had
//! sent, then the bytes received are those that were given.
#![tactic(auto)]

mod alter;
mod dialer;
mod drive;
mod ends;
mod lane;
mod memory;
mod pump;
mod ring;
mod steady;
mod wire;

pub use alter::{Alter, PollFail};
pub use dialer::{DialFault, Dialer};
pub use drive::pump_by;
pub use memory::{MemoryDialer, MemoryWire};
pub use pump::{Pump, PumpFail, Pumped};
pub use steady::{SteadyDialer, SteadyWire};
pub use wire::Wire;
