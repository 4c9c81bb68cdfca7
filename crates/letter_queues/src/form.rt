//! The form of an event's takes.

ghost use Rattle.std.specs.Prelude.{◌≡◌, nat_le, ◌==◌};
ghost use Rattle.std.specs.List.{list_any};
ghost use Rattle.protocol_steps.specs.Run.{ascends_from, form_fault};

use protocol_steps::{EventFault, Take};

/// The first fault in the form of these takes, if there are `count` agents: a sender that is none
/// of them, that the agent has ended, no take or one of no messages, or senders that do not ascend;
/// `None` if there is none.
pub fn form_of(count: usize, ended: bool, takes: &[Take]) -> Option<EventFault>
    ensures { result ≡ form_fault count ended takes.now }
{
    if is_unknown(count, takes) {
        return Some(EventFault::Nobody);
    }
    if ended {
        return Some(EventFault::Ended);
    }
    if takes.is_empty() || has_empty(takes) {
        return Some(EventFault::Nothing);
    }
    if !is_ascending(takes) {
        return Some(EventFault::Order);
    }
    None
}

/// Whether a take names a sender that is not below the number of agents.
fn is_unknown(count: usize, takes: &[Take]) -> bool
    ensures { result ≡ list_any (λ t. nat_le count t.from) takes.now }
{
    takes.iter().any(|take| count <= take.from.0 as usize)
}

/// Whether a take asks for no message.
fn has_empty(takes: &[Take]) -> bool
    ensures { result ≡ list_any (λ t. t.count == 0) takes.now }
{
    takes.iter().any(|take| take.count == 0)
}

/// Whether the senders are in strictly ascending order.
fn is_ascending(takes: &[Take]) -> bool
    ensures { result ≡ ascends_from 0 takes.now }
{
    let mut least = 0;
    for take in takes {
        let from = u64::from(take.from.0);
        if from < least {
            return false;
        }
        least = from + 1;
    }
    true
}
