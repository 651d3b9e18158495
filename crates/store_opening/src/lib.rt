//! What a disk holds of a store is read, tested and replayed, and none of it is changed.
//!
//! The tests come in the order of the format: the super area, the first batch of the log and its version, the rest of the
//! log by itself, the pages without an image, and then each record on the cells. For the third the log is walked once with a
//! replay that awaits so many images of each page that it looks at no cell, and for the last a second time, with the pages.
//!
//! Before that one walk over the pages in place is tried. Where the log has no image of a page and nothing is refused, the
//! tests in their order would find the same, so it is enough; else all is read anew in that order.
//!
//! Then the first four store rules are tested on the cells, in their order and each object by object, so that the answer is the least
//! rule that is broken and the least object that breaks it; where none is, this takes a number of steps that grows as the store does.
//! What had not ended when the store was last used is undone in memory.
#![tactic(auto)]

mod areas;
mod at_once;
mod cells;
mod counts;
mod cycles;
mod first;
mod found;
mod live_cells;
mod names;
mod open_refusal;
mod pages;
mod refusal;
mod replayed;
mod rules;
mod search;
mod settle;
mod store;
mod typed;
mod undo;
mod walk;

pub use cells::read_cells;
pub use open_refusal::{OpenRefusal, Place};
pub use replayed::ReplayedLog;
pub use rules::{BrokenRule, first_broken};
pub use store::{FoundStore, read_store};
pub use undo::{UndoRefusal, undo_all};
