//! Why a call of a store that keeps a map fails.
use store_opening::OpenRefusal;
use thiserror::Error;

/// Why a call of a store that keeps a map fails. It changed nothing, but a commit that the disk failed may be kept.
#[derive(Clone, Copy, Debug, PartialEq, Eq, Error)]
pub enum Failure {
    /// The disk failed a call. Its count of faults rose.
    #[error("a disk call failed")]
    Disk,
    /// The history is full.
    #[error("the history is full")]
    HistoryFull,
    /// The log is full.
    #[error("the log is full")]
    LogFull,
    /// Out of memory.
    #[error("out of memory")]
    Memory,
}

/// Why a store isn't opened after a loss of power, or its map isn't read.
#[derive(Clone, Copy, Debug, PartialEq, Eq, Error)]
pub enum Unopened {
    /// The disk failed the loss of power. Its count of faults rose.
    #[error("a disk call failed")]
    Power,
    /// The store isn't opened.
    #[error("{0}")]
    Refused(OpenRefusal),
    /// The store keeps no map: this object is the first that breaks it.
    #[error("object {id} breaks the map")]
    NoMap {
        /// The object.
        id: u32,
    },
    /// The map could not be read.
    #[error("{0}")]
    Unread(Failure),
}
