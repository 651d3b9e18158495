//! The pages of a store in the pages area of a disk, one after another.
#![tactic(auto)]

mod laws;
mod read;
mod refusal;
mod write;

pub use laws::{other_pages_stay, written_pages_are_read};
pub use read::load;
pub use refusal::PageRefusal;
pub use write::{write_in_place, write_pages};
