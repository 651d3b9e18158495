//! A store that keeps an ordered map, on a disk, by transactions of one client.
//!
//! Each call of a [`StoredMap`] is one transaction of the store's first client, by the calls of the map that objects keep
//! ([`object_map::ObjectMap`]).
#![tactic(auto)]

mod asking;
mod changing;
mod collecting;
mod crashing;
mod failing;
mod finding;
mod kept;
mod knowing;
mod listing;
mod looking;
mod map;
mod opening;
mod resting;
mod transacting;

pub use kept::{Kept, Released};
pub use map::StoredMap;

/// How many slots each object of the store has.
const SLOTS: usize = 14;

/// The client whose transactions work for the map.
const CLIENT: u8 = 1;
