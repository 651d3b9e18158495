//! Two tables of an object store's journal.
//!
//! `TempRefs` is the temporary reference table: the references that running transactions made, laid
//! into slots or cut, or had in registers when they gave a shared lock back. What it names must not be deleted. `ZeroQueue` is the queue of the objects that
//! no strong reference leads to: those that a collector has to look at.
#![tactic(auto)]

mod counts;
mod kind;
mod lists;
mod rest;
mod ring;
mod temp_refs;
mod zero_queue;

pub use kind::{Kind, TempRef};
pub use temp_refs::TempRefs;
pub use zero_queue::ZeroQueue;

/// Out of memory: the library's own error for an allocation that was refused.
pub type Memory = std::alloc::AllocError;
