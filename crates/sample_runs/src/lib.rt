//! Runs of lower crates by their public calls, with the answers that were meant: where memory is left a call that may be out of it
//! succeeds, a free word is claimed, and what stands outside the program, files and streams, is asked.
//!
//! They stand apart from those crates, so that each of these is proved once, without its runs.
#![tactic(auto)]

#[cfg(test)]
mod edges;
#[cfg(test)]
mod host_disk;
#[cfg(test)]
mod latches;
#[cfg(test)]
mod plain_machine;
