//! What is sent on a link between two cells.

ghost use Rattle.std.specs.Prelude.{◌≡◌, IfOk};

use dcop_base::NoMemory;
use protocol_steps::Envelope;
use std::alloc::Global;
use std::marker::Model;

/// A handle to an envelope. It is as large as a pointer, since a ring has many slots. Contracts see
/// the envelope.
#[derive(Drop)]
pub struct Sealed {
    envelope: Box<Envelope>,
}

impl Model for Sealed {
    ghost use Rattle.std.specs.Prelude.{ℕ};
    ghost use Rattle.protocol_steps.specs.declared.message.Message.{Message};

    ghost Value = { ℕ × Message };

    ghost view = { λ s. s.envelope.value };
}

impl Sealed {
    /// Makes a handle to this envelope. It allocates memory.
    pub fn new(alloc: Global, envelope: Envelope) -> Result<Sealed, NoMemory>
        ensures { IfOk result (λ sealed. sealed ≡ envelope) }
    {
        Ok(Sealed {
            envelope: Box::new(alloc, envelope)?,
        })
    }

    /// The envelope.
    pub fn open(self) -> Envelope
        ensures { result ≡ self }
    {
        Box::into_inner(self.envelope)
    }
}
