//! Why a step of the collector was not made.

/// Why a step of the collector was not made, on account of the disk or the log. Nothing was done.
#[derive(Clone, Copy, PartialEq, Eq, Debug)]
pub enum CollectRefusal {
    /// The disk failed a call before. This was its count of faults just after the failed call.
    Stopped { faults: u64 },
    /// The bytes of the log in use, those that the active transactions owe and the record of the step are more than the
    /// limit.
    LogFull,
}
