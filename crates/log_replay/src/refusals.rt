//! The refusals of a replay.

/// Why a record isn't taken. All stays as it was.
#[derive(Clone, Copy, PartialEq, Eq, Debug)]
pub enum TakeRefusal {
    /// Exactly where the record doesn't fit what came before it.
    Unfit,
    /// Out of memory.
    Memory,
}

/// Why the next undo isn't done. All stays as it was.
#[derive(Clone, Copy, PartialEq, Eq, Debug)]
pub enum FinishRefusal {
    /// Exactly where the write can't be undone: its cell isn't live, or has something else there than the transaction
    /// left, or what stood there before is an object that isn't live.
    Unsound { id: u32 },
}
