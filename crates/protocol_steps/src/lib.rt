//! The messages of agents, and what one activation of an agent does.
//!
//! A [`Message`] is sent in a [`Parcel`] to a neighbour, is on a link as an [`Envelope`] with its
//! stamp, and is taken by its receiver in a [`Letter`]. These three keep its numbers in their
//! ranges. A [`Machine`] is an agent. Its meaning is a view: a plain value that holds what the
//! agent was made from and its present state. `start` and `react` give the view and the parcels
//! that the definitions of the token step, the DPOP step and the ADOPT step state. The crates above
//! know nothing else of an agent. `specs/` builds networks, lawful events, runs, journals, stamps
//! and rounds on these steps, with the journal law and the stamp law.
//!
//! The steps follow DPOP (Petcu, Faltings, IJCAI 2005) and ADOPT (Modi, Shen, Tambe, Yokoo,
//! Artificial Intelligence 161, 2005).
#![tactic(auto)]

mod event;
mod law;
mod letter;
mod machine;
mod message;
mod option_list;
mod outcome;
mod run_end;
mod standing;

pub use event::{Entry, Event, EventFault, EventList, Journal, JournalList, Take, TakeList};
pub use law::{
    acquaintance_is_knowledge, journals_decide, journals_order, links_grow, origins_stay,
    parcels_go_to_neighbours, places_fit, private_is_knowledge, rounds_are_a_run,
    rounds_are_bounded, stamps_order, starts_show,
};
pub use letter::{Batch, Envelope, Letter, Outbox, Parcel};
pub use machine::Machine;
pub use message::Message;
pub use option_list::OptionList;
pub use outcome::Outcome;
pub use run_end::RunEnd;
pub use standing::Standing;
