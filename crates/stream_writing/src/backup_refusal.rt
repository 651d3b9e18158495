//! Why a backup isn't made.
use thiserror::Error;

/// Why a backup isn't made.
#[derive(Clone, Copy, Debug, PartialEq, Eq, Error)]
pub enum BackupRefusal {
    /// The disk failed the checkpoint. Its count of faults rose, and the store is stopped.
    #[error("a disk call failed")]
    Disk,
    /// The log with the images that a checkpoint needs would be longer than a log may be.
    #[error("the log is full")]
    LogFull,
    /// Out of memory. The checkpoint was not made.
    #[error("out of memory")]
    Memory,
    /// The sink failed a call. The checkpoint was made, and a front of the base was written.
    #[error("a write failed")]
    Write,
}
