//! Why a line is not taken.

/// Why a line is not taken.
#[derive(Clone, Copy, PartialEq, Eq, Debug)]
pub(crate) enum LineRefusal {
    /// The line may not come next after those that were taken.
    NotAllowed,
    /// Out of memory.
    Memory,
}
