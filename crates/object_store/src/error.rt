//! Why a call isn't done.
use thiserror::Error;

/// Why a call of a store or of a transaction isn't done. What the transaction sees is as before; one goes on after such an answer.
#[derive(Clone, Copy, PartialEq, Eq, Debug, Drop, Error)]
pub enum StoreError {
    /// The transaction doesn't hold the reference: it was released, or it is one of another store.
    #[error("the transaction doesn't hold this reference")]
    NotHeld,
    /// There is no such slot: they are numbered from 0 to 13.
    #[error("an object has the slots 0 to 13")]
    NoSuchSlot,
    /// The transaction holds eight objects. Release one.
    #[error("the transaction holds eight objects already")]
    TooManyReferences,
    /// Every id of the store is stored.
    #[error("there is no room for another object")]
    Full,
    /// Out of memory.
    #[error("out of memory")]
    Memory,
    /// The history of this opening is full. Close the store and open it again.
    #[error("the history of this opening is full")]
    HistoryFull,
    /// The log is full. In a transaction that comes only where it alone has more bytes than the limit of the log has beside the soft one.
    #[error("the log is full")]
    LogFull,
    /// The disk failed a call. Of a commit the next opening finds all or nothing, and a checkpoint loses nothing.
    #[error("the disk failed a call")]
    Disk,
    /// The transaction has ended. One that `begin` gave is open until `commit` or `abort` takes it, so this never comes to it.
    #[error("the transaction has ended")]
    Ended,
    /// The disk failed a call before. Close the store and open it again.
    #[error("the disk failed a call before")]
    Stopped,
}
