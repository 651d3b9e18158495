//! Why a script ends before its end.
use map_calls::{Failure, Unopened};

/// Why a script ends before its end.
#[derive(Clone, Copy, Debug, PartialEq, Eq)]
pub enum Stop {
    /// The line of this number, counted from 1, is refused.
    Line(u32),
    /// The source failed.
    Read,
    /// The sink failed.
    Write,
    /// A call of the store failed.
    Failed(Failure),
    /// The store isn't opened after a loss of power.
    Unopened(Unopened),
}
