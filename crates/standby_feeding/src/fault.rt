//! Why a stream isn't read to its end.

/// Why a stream isn't read to its end.
#[derive(Clone, Copy, Debug, PartialEq, Eq)]
pub enum FeedFault {
    /// The source failed a read. Its count of faults rose.
    Read,
    /// The bytes are no stream.
    Damaged {
        /// The offset in the stream, in bytes, of the first fault.
        at: u64,
    },
    /// Out of memory.
    Memory,
}
