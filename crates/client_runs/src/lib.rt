//! A run of the program on two clients whose calls overlap: that `run` works with threads at once, no clause says.
//!
//! It stands apart from brahma_shell, so that this is proved once, without its run.
#![tactic(auto)]

#[cfg(test)]
mod command;
#[cfg(test)]
mod gates;
