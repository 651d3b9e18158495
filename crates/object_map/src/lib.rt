//! An ordered map from 64-bit keys to 64-bit values, kept in the objects of a store by the calls of a transaction: a crit-bit tree
//! under a slot of the root.
//!
//! A [`Client`] is a store whose one active transaction the map works for. [`ObjectMap`] has the calls of the map.
#![tactic(auto)]

mod attaching;
mod blaming;
mod client;
mod descending;
mod fork;
mod getting;
mod last;
mod laws;
mod making;
mod parting;
mod putting;
mod range;
mod refusal;
mod removing;
mod telling;
mod walking;

pub use client::Client;
pub use getting::ObjectMap;
pub use laws::map_is_one;
pub use range::Range;
pub use refusal::MapRefusal;

/// How many slots each object of the store has.
pub const SLOTS: usize = 14;

/// The slot of the root under which the tree is.
pub const MAP_SLOT: u8 = 13;

/// The slot of a leaf that names its cell, the object that has the value.
const CELL_SLOT: u8 = 2;
