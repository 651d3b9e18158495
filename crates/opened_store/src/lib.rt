//! A store is opened: what its disk holds is read and tested, what had not ended is undone for good, and the pages area is
//! made as long as its pages.
#![tactic(auto)]

mod force;
mod laws;
mod lengthening;
mod open;
mod store;
mod tested;

pub use force::force_undo;
pub use laws::{pages_may_be_longer, refused_stores_do_not_open};
pub use store::open_store;
pub use tested::{restart, test_rules, undo};
