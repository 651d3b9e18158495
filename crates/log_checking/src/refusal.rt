//! Why there is no verdict on what a source gives.
use thiserror::Error;

/// Why there is no verdict on what a source gives.
#[derive(Clone, Copy, Debug, PartialEq, Eq, Error)]
pub enum VerdictRefusal {
    /// The source failed a read. Its count of faults rose.
    #[error("a read failed")]
    Read,
    /// The bytes are no stream.
    #[error("the stream is damaged at byte {at}")]
    Damaged {
        /// The offset in the stream, in bytes, of the first fault.
        at: u64,
    },
    /// The number of pages and the pages are not all there.
    #[error("the stream ends after {len} bytes, inside of its pages")]
    NoBase {
        /// How many bytes the source gave.
        len: u64,
    },
    /// The cells after the whole batches break a store rule, or what has not ended can't be undone.
    #[error("object {id} breaks the store rule {rule}")]
    Unsound {
        /// The object: the least one that breaks the rule, or that of the first change that can't be undone.
        id: u32,
        /// The rule, from 1 to 5. It is the least one that is broken.
        rule: u8,
    },
    /// Out of memory.
    #[error("out of memory")]
    Memory,
}
