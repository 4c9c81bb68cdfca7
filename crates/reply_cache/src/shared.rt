//! Bytes that many owners share.

ghost use Rattle.std.specs.Prelude.{◌≡◌, IfOk};

use dcop_base::{Bytes, NoMemory};
use std::alloc::Global;
use std::marker::Model;
use std::sync::Arc;

/// Bytes that many owners share, in any threads. One more owner costs the same for any number of
/// bytes. Contracts see the bytes.
#[derive(Drop)]
pub struct SharedBytes {
    bytes: Arc<Bytes, Global>,
}

impl Model for SharedBytes {
    ghost use Rattle.std.specs.Prelude.{ℕ, List};
    ghost use Rattle.std.specs.Arc.{arc_value};

    ghost Value = { List ℕ };

    ghost view = { λ s. arc_value s.bytes };
}

impl SharedBytes {
    /// These bytes, with one owner. They keep their memory.
    ///
    /// # Errors
    ///
    /// [`NoMemory`] if memory runs out.
    pub fn new(alloc: Global, bytes: Bytes) -> Result<Self, NoMemory>
        ensures { IfOk result (λ shared. shared ≡ bytes) }
    {
        let bytes = Arc::new(alloc, bytes)?;
        Ok(SharedBytes { bytes })
    }

    /// Gives the same bytes one more owner. It takes no memory.
    ///
    /// # Errors
    ///
    /// [`NoMemory`] if there are 2^63 owners already.
    pub fn share(&self) -> Result<Self, NoMemory>
        ensures { IfOk result (λ shared. shared ≡ self.now) }
    {
        let bytes = Arc::try_clone(&self.bytes)?;
        Ok(SharedBytes { bytes })
    }

    /// The bytes.
    pub fn as_slice(&self) -> &[u8]
        ensures { result.now ≡ self.now }
    {
        self.bytes.as_slice()
    }
}
