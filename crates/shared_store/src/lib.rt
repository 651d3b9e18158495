//! One store for many threads: each works on it through a pass of its own, and no call waits for another.
//!
//! The journal is kept as a chronicle, whose notes determine what each page holds (chronicle.rt).
//!
//! [`Store`] has the journal after the log word of a table of latches, and each page's frame after a word of its own. A call
//! claims the log word, then the pages that it works on, acts on the journal, tells of its entry by the one store that makes the
//! event, and drops all before it answers. Where another pass has a word, it drops what it has and answers whose that is.
//!
//! [`LoneStore`] is such a store with one hold, which has all words between calls and meets nobody.
#![tactic(auto)]

mod aborting;
mod answers;
mod calls;
mod chronicle;
mod chronicle_collecting;
mod chronicle_upkeep;
mod collecting;
mod counting;
mod finishing;
mod holding;
mod lone;
mod lone_calls;
mod lone_upkeep;
mod noting;
mod origin;
mod pass;
mod refused;
mod store;
mod taking;
mod upkeep;

pub use answers::{CollectRefusal, Peek, StepRefusal};
pub use latch_table::Held;
pub use lone::LoneStore;
pub use pass::Pass;
pub use refused::Refused;
pub use store::Store;
