//! What upkeep of the log and of the pages answers.

/// What a call answers that cleans a page or turns the log.
#[derive(Clone, Copy, PartialEq, Eq, Debug)]
pub enum Upkeep {
    /// It was done, and entered the history as an entry that changes nothing.
    Done,
    /// The log was not turned, since a transaction is active: the least such client, by its number from 1 to 64. That entered the
    /// history.
    Busy { pass: u8 },
    /// The disk failed a call before. This was its count of faults just after the failed call. Nothing was done.
    Stopped { faults: u64 },
    /// The history has no room left. Nothing was done.
    TraceFull,
    /// What it needs of the log would go past the log's limit, or, of a turn, past what a log may have. Nothing was done.
    LogFull,
    /// Out of memory. Nothing was done.
    Memory,
    /// The disk failed a call. The store is stopped by it, and has to be opened again.
    DiskFault,
}
