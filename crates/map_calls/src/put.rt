//! What became of a pair that was to be put.

/// What became of a pair that was to be put.
#[derive(Clone, Copy, Debug, PartialEq, Eq)]
pub enum Put {
    /// It is stored. The key had this value before, where it had one.
    Stored {
        /// The old value.
        old: Option<u64>,
    },
    /// Fewer ids are free than it needs. The map is as before.
    NoRoom,
}
