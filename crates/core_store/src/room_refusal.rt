//! Why no room is taken for an entry.

/// Why no room is taken for an entry.
#[derive(Clone, Copy, PartialEq, Eq, Debug)]
pub enum RoomRefusal {
    /// The history has no room left.
    TraceFull,
    /// Out of memory.
    Memory,
}
