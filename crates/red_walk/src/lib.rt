//! The red walk of a collector round.
//!
//! A round opens with one object without strong pointers. The walk goes over the round's objects in the
//! order in which they joined, and over each object's slots in ascending order, and asks for a look at
//! each slot, save those that the caller goes over since they give nothing to do. The caller makes a
//! strong pointer weak and tells which object joins by this. After the last slot the walk asks for a copy
//! of each object's slots and counts, in the same order, and then for the verdict. From the first copy on,
//! an object that changes is marked as touched.
//!
//! `Red` holds ids, copies and a cursor, and reads no page. `IdList` is the list of ids beneath it. Room
//! for all ids is taken when they are made, and no later call takes memory.
#![tactic(auto)]

mod id_list;
mod laws;
mod red;
mod red_at;

pub use id_list::IdList;
pub use laws::walks_are_rounds;
pub use red::Red;
pub use red_at::RedAt;

/// Out of memory: the library's own error for an allocation that was refused.
pub type Memory = std::alloc::AllocError;
