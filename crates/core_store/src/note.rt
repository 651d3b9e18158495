//! What the journal keeps of each event.

use crate::act::Act;
use log_record::CellRecord;
use plain_model::Entry;

/// An entry of the history, and the log record of what it changed.
#[derive(Debug, Drop)]
pub struct Note {
    /// The history's entry.
    pub entry: Entry,
    /// What the event logs: how a transaction began or ended, or which cells it changed and how.
    pub logged: Option<CellRecord>,
    /// How much work is left in the open round after it: 0 exactly where no round is open.
    pub left: u64,
    /// Which event of the collector it is of.
    pub act: Act,
}
