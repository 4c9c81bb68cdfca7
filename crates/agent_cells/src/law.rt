//! How many messages of one link are taken at a time.

ghost use Rattle.std.specs.Prelude.{◌≡◌};
ghost use Rattle.protocol_steps.specs.Rounds.{link_share};
ghost use Rattle.fifo_links.specs.Slots.{ring_slots};

/// The number of slots of a ring is the number of messages of one link that are taken at a time, by
/// the definition of rounds.
pub fn slots_are_a_share()
    ensures { ring_slots ≡ link_share }
{}
