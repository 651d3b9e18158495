//! A script of lines over a store that keeps an ordered map.
//!
//! [`map_script`] reads the lines of a source, does one after another in a [`stored_map::StoredMap`], and writes the line of each after its
//! commit.
#![tactic(auto)]

mod answering;
mod ending;
mod placing;
mod printing;
mod script;
mod stop;

pub use ending::map_script;
pub use printing::end_unopened;
pub use stop::Stop;
