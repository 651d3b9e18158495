//! The log of a store as text: a line for each record. It is made of the bytes of a log, or of the current log of a disk, and then written
//! to a sink without opening the store.
#![tactic(auto)]

mod areas;
mod fitting;
mod laws;
mod lines;
mod printing;
mod record_lines;
mod refusal;
mod testing;
mod text;
mod view_refusal;
mod walking;
mod window;

pub use laws::logs_have_one_text;
pub use lines::LogLines;
pub use printing::print_log;
pub use record_lines::{LINE_ROOM, record_line};
pub use refusal::PrintRefusal;
pub use text::{Text, log_text};
pub use view_refusal::ViewRefusal;
