//! What a step of the collector did.

/// What a step of the collector did.
#[derive(Clone, Copy, PartialEq, Eq, Debug)]
pub enum Collect {
    /// Nothing: the queue is empty and no round is open.
    Idle,
    /// It made one event, which deleted nothing.
    Did {
        /// Whether an id left the queue by being its first.
        popped: bool,
        /// How much work is left in the open round, and 0 where none is open.
        left: u64,
    },
    /// It deleted an object.
    Deleted {
        /// The object.
        id: u32,
        /// How much work is left in the open round.
        left: u64,
    },
    /// Nothing: an entry more would go past the limit of the history.
    TraceFull,
    /// Nothing: out of memory.
    Memory,
}
