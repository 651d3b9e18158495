//! Runs of opened stores by their public calls: the lines that README.md and docs/EMBEDDING.md show to whoever embeds them.
//!
//! It stands apart from those crates, so that each of these is proved once, without its run.
#![tactic(auto)]

#[cfg(test)]
mod readme;
