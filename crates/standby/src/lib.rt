//! A standby: the pages of a store, and what the records of the log after them made of these, as a stream brings them in pieces. It
//! can be promoted, as a store on a disk.
#![tactic(auto)]

mod feeding;
mod gathered;
mod laws;
mod promoted;
mod promotion;
mod refusals;
mod settling;
mod standby;
mod stored;
mod taking;

pub use laws::{made_stores_open, streams_are_whole_or_damaged};
pub use promoted::Promoted;
pub use refusals::PromoteRefusal;
pub use settling::{Settled, settle};
pub use standby::Standby;
