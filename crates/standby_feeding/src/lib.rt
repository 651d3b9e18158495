//! A standby that is fed from a source, and promoted on a disk. What each reader of a stream needs is here too: when it has read
//! enough, and the line of a stream that is refused.
#![tactic(auto)]

mod fault;
mod feeding;
mod laws;
mod line;
mod refusal;
mod standing_by;

pub use fault::FeedFault;
pub use laws::streams_end;
pub use line::{stream_line, write_promoted};
pub use refusal::StreamRefusal;
pub use standing_by::stand_by;
