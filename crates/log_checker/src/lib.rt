//! A checker of a stream, which trusts nobody who wrote it: it replays the log over the pages as a standby does, keeps beside it the
//! plain fold of the commits, and tells whether both come to the same.
//!
//! The fold (`tally`) knows nothing of counts, strengths, collectors and undos: it has the objects of a base with the writes of each
//! transaction that has a commit, in the order of the commits. Two graphs are compared in what their roots reach (`difference`).
#![tactic(auto)]

mod checker;
mod difference;
mod feeding;
mod folded_objects;
mod gathered;
mod id_lists;
mod judging;
mod open_writes;
mod refusal;
mod same_objects;
mod settled;
mod taking;
mod tally;
mod verdict;

pub use checker::Checker;
pub use refusal::CheckRefusal;
pub use verdict::Verdict;
