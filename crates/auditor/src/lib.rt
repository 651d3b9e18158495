//! The auditor: it replays what a journal logged, counts all pointers again, and tells where the counts in the frames
//! differ from what it found.
#![tactic(auto)]

mod auditing;
mod counts;
mod difference;
mod journal;
mod replay;
mod report;

pub use auditing::{audit, recount, report_on};
pub use counts::count_cell;
pub use difference::{Difference, Differences};
pub use journal::audit_journal;
pub use replay::replayed;
pub use report::Report;
