//! A call that the disk failed.

/// A call whose disk calls failed: a commit whose records could not be made to last, or upkeep. The store is stopped by it, and
/// has to be opened again.
#[derive(Clone, Copy, PartialEq, Eq, Debug)]
pub struct FailedCall {
    /// The client whose commit it was, by its number from 1 to 64, or nothing where it was upkeep. A power loss may lose that
    /// commit or keep it.
    pub commit: Option<u8>,
    /// The disk's count of faults just after the failed call.
    pub faults: u64,
}

/// Nothing was done, since the disk failed a call before.
#[derive(Clone, Copy, PartialEq, Eq, Debug)]
pub struct Stopped {
    /// The disk's count of faults just after the failed call.
    pub faults: u64,
}
