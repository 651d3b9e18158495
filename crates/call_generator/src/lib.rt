//! Generated calls: what so many clients ask, drawn from a seed.
//!
//! A [`Generator`] gives one [`Turn`] after another: what a client asks, and whether the
//! collector makes a step after it. The options of `gen`, which clap reads, say what is to be drawn.
#![tactic(auto)]

mod client;
mod draws;
mod generator;
mod options;
mod parsed;
mod turns;

pub use client::Client;
pub use generator::Generator;
pub use options::{Asked, asked_of};
pub use turns::Turn;
