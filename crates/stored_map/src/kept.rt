//! What is kept of a store between two calls, and what is left of it at the end.
use crate::SLOTS;
use disk_model::Disk;
use logged_journal::LoggedJournal;
use shared_store::LoneStore;

/// What is kept of a store between two calls.
#[derive(Drop)]
pub enum Kept<D: Disk> {
    /// The store, in which no client has a transaction.
    Idle(LoneStore<SLOTS, D>),
    /// The store, in which the client has a transaction that changed nothing.
    Looking(LoneStore<SLOTS, D>),
    /// The store, of which a call failed.
    Stopped(LoneStore<SLOTS, D>),
    /// The disk of a store that isn't opened.
    Shut(D),
    /// Nothing, while a call has the store.
    Taken,
}

/// What is left of a store that is let go.
#[derive(Drop)]
pub enum Released<D: Disk> {
    /// The journal with its log, which holds the disk.
    Open(LoggedJournal<SLOTS, D>),
    /// The disk of a store that isn't opened.
    Shut(D),
}
