//! The two parts of a stream, written to a sink: its base, of a store of which a checkpoint is made first, and the bytes of the current
//! log of a store, which isn't opened for that.
#![tactic(auto)]

mod backup;
mod backup_refusal;
mod base;
mod copy;
mod ship_refusal;
mod shipping;

pub use backup::back_up;
pub use backup_refusal::BackupRefusal;
pub use ship_refusal::ShipRefusal;
pub use shipping::ship;
