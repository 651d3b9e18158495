//! The command `map`: its lines, what its calls are answered, and what contracts see of a store that keeps a map.
//!
//! [`accepted`] tells what a line asks as a [`Line`], and the functions ending in `_line` spell what is printed. The lines
//! themselves are found by `script_lines::LineReader`. The definitions `Maps` and `Views` of `specs` say what a call does to the
//! map, and what a power loss leaves then.
#![tactic(auto)]

mod failure;
mod fields;
mod grammar;
mod numbers;
mod output;
mod put;

pub use failure::{Failure, Unopened};
pub use grammar::{Line, accepted};
pub use output::{
    LINE_ROOM, deleted_line, found_line, keys_line, list_line, no_map_line, put_full_line,
    put_line, reopened_line,
};
pub use put::Put;
