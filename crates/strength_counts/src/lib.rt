//! Which pointers are strong, and the flip that exchanges strong and weak.
#![tactic(auto)]

mod counts;
mod flip;

pub use counts::takes_strong;
pub use flip::flip_cell;
