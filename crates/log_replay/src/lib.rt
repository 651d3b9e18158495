//! The replay of a log over the pages of a store: its records are done one after another, and what has not ended is
//! undone. Where images of a page are still to come, its cells are left alone until the last of them.
#![tactic(auto)]

mod cell_steps;
mod cell_tests;
mod cells;
mod change;
mod concerned;
mod finish;
mod fits;
mod pages;
mod refusals;
mod replay;
mod transaction;
mod transactions;
mod undo;
mod unended;

pub use refusals::{FinishRefusal, TakeRefusal};
pub use replay::Replay;

/// Out of memory.
pub type Memory = std::alloc::AllocError;
