//! Why bytes cannot be decoded.

use thiserror::Error;

/// Why bytes cannot be decoded into an envelope.
#[derive(Clone, Copy, Debug, PartialEq, Eq, Error)]
pub enum DecodeFault {
    /// The bytes are not the code of an envelope.
    #[error("bad message at byte {place}")]
    Bad {
        /// The position, from 0, of the first field that is cut short or outside its range; or, if
        /// each field is fine, of the first byte after the last field.
        place: u64,
    },
    /// Memory ran out. No clause says when.
    #[error("out of memory")]
    NoMemory,
}
