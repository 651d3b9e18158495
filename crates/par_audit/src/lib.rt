//! The parallel audit: the recount of all pointers and the marking of what the root reaches, by pieces in several threads.
#![tactic(auto)]

mod following;
mod found;
mod garbage;
mod journal;
mod listing;
mod marking;
mod marks;
mod names;
mod objects;
mod pairs;
mod pieces;
mod recounting;
mod tables;
mod wide;

pub use found::{Found, find};
pub use garbage::garbage_in;
pub use journal::par_audit_journal;
pub use marking::mark;
pub use tables::{Tables, count_by_pieces};
pub use wide::{Wide, par_audit, recount_by_pieces};
