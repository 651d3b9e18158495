//! The steps of an abort.

/// What an abort step did.
#[derive(Clone, Copy, PartialEq, Eq, Debug)]
pub enum AbortStep {
    /// It undid one write: the last one that wasn't undone.
    Undone,
    /// No write was left to undo: the transaction has ended.
    Ended,
}
