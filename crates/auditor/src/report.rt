//! What an audit tells.
use crate::difference::Differences;

/// What an audit found.
#[derive(Debug, Drop)]
pub struct Report {
    /// How many cells are live after the trace.
    pub live: u32,
    /// How many of them no strong pointer leads to. The root has one of its own.
    pub zero: u32,
    /// The ids whose counts in their frames differ from what was found.
    pub differences: Differences,
}
