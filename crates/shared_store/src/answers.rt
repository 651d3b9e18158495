//! What calls of the store answer.

use cell_page::Cell;

/// Why a step of an abort was not made. Nothing was done.
#[derive(Clone, Copy, PartialEq, Eq, Debug)]
pub enum StepRefusal {
    /// The pass of this number has this word: ask again.
    Again { word: u32, seat: u32 },
    /// The disk failed a call before. This was its count of faults just after the failed call.
    Stopped { faults: u64 },
}

/// Why a step of the collector was not made, on account of another pass, of the disk or of the log. Nothing was done.
#[derive(Clone, Copy, PartialEq, Eq, Debug)]
pub enum CollectRefusal {
    /// The pass of this number has this word: ask again.
    Again { word: u32, seat: u32 },
    /// The disk failed a call before. This was its count of faults just after the failed call.
    Stopped { faults: u64 },
    /// The bytes of the log in use, those that the active transactions owe and the record of the step are more than the
    /// limit.
    LogFull,
}

/// What a look at a cell answers.
#[derive(Clone, Copy, PartialEq, Eq, Debug)]
pub enum Peek<const SLOTS: usize> {
    /// The cell, as the first `seen` entries leave it.
    Cell { seen: u64, cell: Cell<SLOTS> },
    /// The pass of this number has the word of the page: ask again.
    Again { word: u32, seat: u32 },
}
