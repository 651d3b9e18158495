//! A store of objects in one crate: opened from a disk, and worked on by transactions whose handles borrow it.
//!
//! [`make`] makes a new store on a disk, [`Store::open`] opens the one that a disk holds, and [`Store::begin`] begins a transaction. [`Transaction`] reads and writes
//! objects: each has fourteen slots, which hold references or nothing, and a payload of 64 bits. A transaction sees what is
//! committed and its own writes. [`Transaction::commit`] makes them durable; what a handle
//! wrote that is dropped without it is lost.
//!
//! # References
//!
//! A [`Ref`] is a copy of an id that the transaction reached: the root, an object that it made, or what it read in a slot. Nobody makes
//! one of a number.
//!
//! The store keeps what a transaction holds in eight registers, so that the collector spares it. A reference is good as long as its
//! register has its object. Each object is held once: reading one that is held gives the same reference. The root always is.
//! Where eight objects are held, a read and a new object answer [`StoreError::TooManyReferences`]; [`Transaction::release`] lets one
//! go.
//!
//! A reference lives as long as the transaction borrows the store: while one is still used, no other transaction can begin there, so a
//! reference of an ended transaction is never used. Lifetimes don't tell two stores apart. So each call looks whether the register
//! of the reference has its object, and answers [`StoreError::NotHeld`] where it hasn't; so it is with a reference that was released.
//! What a call does it does to the object of this id that its own transaction holds.
//!
//! # Upkeep
//!
//! Objects that the root doesn't reach any more stay stored until the collector deletes them, and the log grows with each commit. A store sees to
//! both by itself. Some steps of the collector follow each commit. Where more of the log is in use than its soft limit, [`Store::begin`] makes a
//! checkpoint first, so that the log begins anew. [`Options`] says how many steps, and what the limit is. Where there is time between two
//! transactions, [`Store::collect`], [`Store::checkpoint`] and [`Store::tend`] do more.
#![tactic(auto)]

mod asking;
mod calls;
mod ending;
mod error;
mod keeping;
mod making;
mod options;
mod reference;
mod store;
mod table;
mod tending;
mod transaction;
mod upkeep;

pub use disk_model::{Disk, MemoryDisk};
pub use error::StoreError;
pub use making::make;
pub use options::Options;
pub use plain_model::Ids;
pub use reference::Ref;
pub use restart_store::InitRefusal;
pub use store::Store;
pub use store_opening::OpenRefusal;
pub use transaction::Transaction;

/// How many slots each object has.
pub const SLOTS: usize = 14;

/// How many registers a transaction has.
const REGISTERS: u8 = 8;

/// The number by which the store below knows its one client.
const CLIENT: u8 = 1;
