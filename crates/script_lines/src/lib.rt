//! The lines of a script: how they are read, what they ask, and the lines that are printed for them.
//!
//! A [`LineReader`] finds one line after another in a source, [`accepted`] tells what a line asks as a
//! [`Line`], and the functions ending in `_line` spell what is printed.
#![tactic(auto)]

mod fields;
mod grammar;
mod lines;
mod numbers;
mod output;
mod verb;

pub use grammar::{Line, accepted};
pub use lines::{Found, LineReader};
pub use numbers::{SLOTS, clients_of, pages_of, seed_of, transactions_of};
pub use output::{
    LINE_ROOM, audit_line, call_line, crash_line, delete_line, generated_line, open_refusal_line,
    pages_line, par_audit_line, refused_line, stored_line, turn_busy_line, write_all, write_call,
    write_last,
};
