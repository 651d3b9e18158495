//! The run of docs/EMBEDDING.md: two threads, each of which works through a pass of its own.
//!
//! It stands apart from shared_store, so that this is proved once, without its run.
#![tactic(auto)]

#[cfg(test)]
mod calls;
#[cfg(test)]
mod made;
#[cfg(test)]
mod threads;
#[cfg(test)]
mod untold;
