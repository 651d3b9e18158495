//! A checker that is fed from a source, and the line of its verdict.
#![tactic(auto)]

mod checking;
mod feeding;
mod line;
mod refusal;

pub use checking::check_stream;
pub use line::write_verdict;
pub use refusal::VerdictRefusal;
