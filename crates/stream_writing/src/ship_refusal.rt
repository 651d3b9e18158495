//! Why the log isn't written.
use store_opening::OpenRefusal;
use thiserror::Error;

/// Why the log isn't written, or not all of it.
#[derive(Clone, Copy, Debug, PartialEq, Eq, Error)]
pub enum ShipRefusal {
    /// The log isn't read. On account of the disk a front of its bytes may have been written, and else nothing was.
    #[error("the log is not read: {0}")]
    Unread(OpenRefusal),
    /// The sink failed a call. A front of the log's bytes was written.
    #[error("a write failed")]
    Write,
}
