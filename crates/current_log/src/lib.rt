//! The current log of a store, found and tested without opening the store.
//!
//! What is tested is what an opening tests before it looks at a page: the super area, the length of the log area that it names,
//! the first batch with its version, and then batch by batch whether each record may stand there. No cell is tested, nothing is
//! written, and nothing is made to last.
//!
//! A batch is held in memory while it is tested, and a piece of the log that was read at once. The bytes of a log that was found can
//! then be read in pieces.
#![tactic(auto)]

mod batch;
mod first;
mod found;
mod records;
mod testing;
mod window;

pub use found::{FoundLog, find_log};
