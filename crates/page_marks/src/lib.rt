//! What the log of a store tells of each page: whether a record concerns it, and whether the last such record is an image of it.
#![tactic(auto)]

mod laws;
mod marks;

pub use laws::marks_follow_records;
pub use marks::{PageMark, PageMarks};
