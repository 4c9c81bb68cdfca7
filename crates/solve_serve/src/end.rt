//! How a session ended.

/// How a session ended, and how many requests it answered.
#[derive(Clone, Copy, Debug, PartialEq, Eq)]
pub enum SessionEnd {
    /// The input ended after whole frames.
    Closed {
        /// How many requests were answered.
        served: u64,
    },
    /// The input ended inside a frame.
    Cut {
        /// How many requests were answered.
        served: u64,
    },
    /// A length field is above [`MAX_REQUEST`].
    ///
    /// [`MAX_REQUEST`]: crate::MAX_REQUEST
    Long {
        /// How many requests were answered.
        served: u64,
        /// The place of that field in the stream, from 0; 2^64 - 1 means that place or any later
        /// one.
        place: u64,
    },
    /// [`MAX_REPLIES`] requests were answered.
    ///
    /// [`MAX_REPLIES`]: crate::MAX_REPLIES
    Limit {
        /// How many requests were answered.
        served: u64,
    },
    /// The source failed.
    Read {
        /// How many requests were answered.
        served: u64,
    },
    /// The sink failed.
    Write {
        /// How many requests were answered before that.
        served: u64,
    },
    /// Memory ran out. No clause says when this happens.
    Memory {
        /// How many requests were answered before that.
        served: u64,
    },
}
