//! Messages in transit, with numbers within their ranges.

use crate::message::Message;
use dcop_base::{Sequence, VarId};
use std::marker::Model;

/// A message on a link, with the stamp of the step that sent it. Contracts see the pair.
///
/// The stamp is at most `CAP`, and the message's numbers are in their ranges: amounts are at most
/// `CAP`, variables below 1,000, values below 1,024, and lists have at most 1,000 variables or 2^20
/// cells.
#[derive(Debug, Drop)]
pub struct Envelope {
    /// The stamp of the sender's step; 0 for its start.
    pub stamp: u64,
    /// The message.
    pub message: Message,
}

impl Model for Envelope {
    ghost use Rattle.std.specs.Prelude.{ℕ, ◌≤◌};
    ghost use Rattle.dcop_base.specs.Limits.{amount_limit};
    ghost use Rattle.protocol_steps.specs.declared.message.Message.{Message};
    ghost use Rattle.protocol_steps.specs.Ranges.{IsInRange};

    ghost Value = { ℕ × Message };

    ghost view = { λ e. (e.stamp, e.message) };

    ghost invariant = { λ e. (e.stamp ≤ amount_limit) × IsInRange e.message };
}

/// A message that an agent takes, with its sender. Contracts see the pair. The message's numbers
/// are in the ranges of [`Envelope`].
#[derive(Debug, Drop)]
pub struct Letter {
    /// The sender.
    pub from: VarId,
    /// The message.
    pub message: Message,
}

impl Model for Letter {
    ghost use Rattle.std.specs.Prelude.{ℕ};
    ghost use Rattle.protocol_steps.specs.declared.message.Message.{Message};
    ghost use Rattle.protocol_steps.specs.Ranges.{IsInRange};

    ghost Value = { ℕ × Message };

    ghost view = { λ l. (l.from, l.message) };

    ghost invariant = { λ l. IsInRange l.message };
}

/// A message that an agent sends, with its receiver. Contracts see the pair. The message's numbers
/// are in the ranges of [`Envelope`].
#[derive(Debug, Drop)]
pub struct Parcel {
    /// The receiver.
    pub to: VarId,
    /// The message.
    pub message: Message,
}

impl Model for Parcel {
    ghost use Rattle.std.specs.Prelude.{ℕ};
    ghost use Rattle.protocol_steps.specs.declared.message.Message.{Message};
    ghost use Rattle.protocol_steps.specs.Ranges.{IsInRange};

    ghost Value = { ℕ × Message };

    ghost view = { λ p. (p.to, p.message) };

    ghost invariant = { λ p. IsInRange p.message };
}

/// The messages that one activation takes, in ascending order of the senders.
pub type Batch = Sequence<Letter>;

/// The messages that one activation sends, in order.
pub type Outbox = Sequence<Parcel>;
