//! Why the log isn't printed.
use store_opening::OpenRefusal;
use thiserror::Error;

/// Why the log isn't printed, or not all of it.
#[derive(Clone, Copy, Debug, PartialEq, Eq, Error)]
pub enum PrintRefusal {
    /// The log isn't read. Where the disk failed a call, or its bytes changed since they were tested, some lines may have been
    /// written. Else nothing was.
    #[error("the log is not read: {0}")]
    Unread(OpenRefusal),
    /// The sink failed a call. A front of the text was written.
    #[error("a write failed")]
    Write,
}
