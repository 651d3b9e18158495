//! A journal whose events stand in a log on a disk.
//!
//! Each event that changes a cell, and the beginning and the end of each transaction, has a record. It joins the tail of
//! the log at the same event, in room that was taken before, and a commit is answered when all of it is there for good.
#![tactic(auto)]

mod applying;
mod checkpoint;
mod cleaning;
mod collect;
mod collecting;
mod failed;
mod logged;
mod needs;
mod placing;
mod refusing;
mod spell;
mod steps;
mod typed;
mod upkeep;

pub use collect::CollectRefusal;
pub use failed::{FailedCall, Stopped};
pub use logged::LoggedJournal;
pub use upkeep::Upkeep;
