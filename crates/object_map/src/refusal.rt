//! Why a call of the map was not done.
use plain_model::Reply;
use thiserror::Error;

/// Why a call of the map was not done. Some of its writes may stand, so the caller aborts the transaction.
#[derive(Clone, Copy, PartialEq, Eq, Debug, Drop, Error)]
pub enum MapRefusal {
    /// The graph keeps no map under the slot. This is the first object that breaks its own sentence of the definition, where an object
    /// stands before those under it, and slots ascend.
    #[error("object {id} breaks the map")]
    NotMap { id: u32 },
    /// The store refused a call: the trace or the log is full, or every id is stored where an object is to be made.
    #[error("the store refused a call")]
    Store { reply: Reply },
    /// Out of memory.
    #[error("out of memory")]
    Memory,
}
