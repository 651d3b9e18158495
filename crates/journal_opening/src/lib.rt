//! A store is opened from its disk, as a journal with its log and all its frames. A store that was made opens to the root
//! alone.
#![tactic(auto)]

mod frames;
mod laws;
mod opening;

pub use laws::{cut_stores_open_alike, fresh_stores_open};
pub use opening::open;
