//! Two-phase locking: the table of the locks that clients hold. An exclusive lock is kept until its client gives all of its locks back,
//! and a shared one may be given back before.
//!
//! `LockTable` grants shared and exclusive locks on objects, or answers at once which client stands
//! in the way. Each client has a list of the objects that it holds, so that the end of its
//! transaction goes over its own locks alone.
#![tactic(auto)]

mod client_set;
mod clients;
mod held_ids;
mod lock_table;
mod object_lock;
mod objects;
mod refusal;
mod rows;
mod standing;

pub use lock_table::LockTable;
pub use refusal::LockRefusal;
