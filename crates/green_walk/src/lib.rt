//! The verdict of a collector round, the sweep of what it condemns, and the green walk of what lives.
//!
//! When all objects of a round were copied, `Verdict` tells which of them live: the seeds, which something
//! outside the round's copies holds, and all that copied slots name from there. The others are condemned.
//! `LockView` is the row of the locked objects that the caller fills for it. `Sweep` says in which order
//! the slots of the condemned objects are emptied and the objects freed.
//!
//! Nothing here reads a page. Room for all ids is taken when the values are made, and no later call takes
//! memory.
#![tactic(auto)]

mod copied_slots;
mod counts;
mod green;
mod green_at;
mod laws;
mod lock_view;
mod part;
mod reach;
mod seeds;
mod sweep;
mod verdict;

pub use copied_slots::CopiedSlot;
pub use green::Green;
pub use green_at::{GreenAt, Test};
pub use laws::{
    condemned_objects_are_garbage, green_walks_are_of_the_living, green_walks_end,
    green_walks_stay_in_step, sweeps_free_the_condemned,
};
pub use lock_view::LockView;
pub use sweep::{Found, Sweep, SweepAt};
pub use verdict::Verdict;

/// Out of memory: the library's own error for an allocation that was refused.
pub type Memory = std::alloc::AllocError;
