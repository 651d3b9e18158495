//! What the program says on standard error, beside its fixed lines: what a refusal means and how to go on, the prompt of a
//! terminal, and how far a long command has come.
//!
//! Three wrappers hear what goes by: [`HeardSink`] the refusal that is printed, [`HeardSource`] the end of the script that was
//! read, [`WatchedDisk`] the call that the disk failed first. To contracts each is what it wraps, so what is promised of a
//! program holds of it with them too. [`explain`] says the rest. Nothing here fails: a text that can't be written is left out.
#![tactic(auto)]

mod disk_failures;
mod ending;
mod heard_sink;
mod heard_source;
mod latest;
mod line_faults;
mod line_shapes;
mod line_texts;
mod openings;
mod progress;
mod refusal;
mod refused_line;
mod streams;
mod watched_disk;

pub use disk_failures::explain_lock;
pub use ending::{Doing, Known, explain, explain_usage};
pub use heard_sink::HeardSink;
pub use heard_source::{HeardSource, Input, Listener};
pub use latest::Latest;
pub use line_faults::{Fault, fault_in};
pub use line_shapes::Expected;
pub use refusal::{Log, Refusal};
pub use watched_disk::{Act, FailedAct, WatchedDisk};
