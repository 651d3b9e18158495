//! What a promotion tells.

use plain_model::Ids;

/// A standby was promoted.
#[derive(Debug, Drop)]
pub struct Promoted {
    /// How many whole batches of the log it was fed with.
    pub batches: u64,
    /// The ids of the objects that the store has, ascending.
    pub stored: Ids,
}
