//! Why a log is not a run with right stamps.

use dcop_base::NoMemory;
use protocol_steps::EventFault;

/// A stamp of a log that is wrong.
#[derive(Clone, Copy, Debug, PartialEq, Eq)]
pub struct WrongStamp {
    /// The number of its event, counted from 1.
    pub at: u64,
    /// The stamp.
    pub left: u64,
    /// The right stamp. If the stamp is right, but the event does not follow the one before it by
    /// stamp and then agent, this is the stamp of the event before it.
    pub right: u64,
}

/// Why a log is not a run with right stamps.
#[derive(Clone, Copy, Debug, PartialEq, Eq)]
pub enum LogFault {
    /// An event is not lawful; the events before it are.
    BadEvent {
        /// Its number, counted from 1.
        at: u64,
        /// Why it is not lawful.
        fault: EventFault,
    },
    /// All events are lawful, and this is the first stamp that is wrong.
    BadStamp(WrongStamp),
    /// Memory ran out.
    NoMemory,
}

impl From<NoMemory> for LogFault {
    ghost use Rattle.std.specs.Prelude.{◌≡◌};
    ghost use Rattle.log_replay.specs.declared.fault.LogFault.TheVariants.{NoMemory as no_memory};

    ghost from_gives = { λ _ e. e ≡ no_memory };

    fn from(_refused: NoMemory) -> Self {
        LogFault::NoMemory
    }
}
