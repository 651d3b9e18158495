//! Words that threads latch: one for each page, one for a log, and the log's length.
//!
//! A hold is what one thread has of the table. It claims a word by one compare-and-exchange, which fails where another hold has
//! it, and drops it by a store. No call waits.
//!
//! A [`Chronicle`] is a log whose entries determine the content of every page. [`Latches`] keeps it behind the log word and
//! each page's frame behind a word of its own. What a frame shows is at each moment what the chronicle says of its page.
#![tactic(auto)]

mod chronicle;
mod content;
mod hold;
mod latches;
mod packing;
mod plays;
mod rule;
mod starting;
mod table;
mod view;

pub use chronicle::Chronicle;
pub use hold::{Held, Hold};
pub use table::Latches;
pub use view::{Hands, Happening, Knowledge, Station, Story, View};
