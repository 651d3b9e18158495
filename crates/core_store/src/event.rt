//! Which event the collector made.
ghost use Rattle.std.specs.Prelude.{◌≡◌};
ghost use Rattle.core_store.specs.Notes.{act_of, logged_of};
ghost use Rattle.core_store.specs.Collects.{entry_of};

use crate::act::Act;
use log_record::CellRecord;
use plain_model::Entry;

/// An event of the collector, with all that its note tells of it but how much work is left then. Ids begin at 1. The fields stand
/// by their size, so that an event takes 12 bytes.
#[derive(Clone, Copy, Debug)]
pub(crate) enum Event {
    /// The first object of the queue was passed over.
    Skip {
        id: u32,
    },
    /// A round opened with the first object of the queue.
    Start {
        id: u32,
    },
    /// The slots and counts of an object of the round were copied.
    Scan {
        id: u32,
    },
    /// The verdict came.
    Judge,
    /// The round closed.
    End,
    /// The slot's pointer to the target became weak.
    Weaken {
        slot: u8,
        id: u32,
        target: u32,
    },
    /// The slot's pointer to the target became strong.
    Strengthen {
        slot: u8,
        id: u32,
        target: u32,
    },
    /// The object's target bit changed, and the pointer bits of its own pointers to itself.
    Flip {
        id: u32,
    },
    /// The slot of a condemned object was made null: what it held, and whether that was strong.
    CutDead {
        slot: u8,
        was_strong: bool,
        id: u32,
        target: u32,
    },
    /// The object was deleted.
    Free {
        id: u32,
    },
}

impl Event {
    /// What a note of it tells of the collector.
    pub(crate) fn act(self) -> Act
        ensures { result ≡ act_of self }
    {
        match self {
            Event::Skip { id } => Act::Skip { id },
            Event::Start { id } => Act::Start { id },
            Event::Scan { id } => Act::Scan { id },
            Event::Judge => Act::Judge,
            Event::End => Act::End,
            Event::Weaken { .. } => Act::Change,
            Event::Strengthen { .. } => Act::Change,
            Event::Flip { .. } => Act::Change,
            Event::CutDead { .. } => Act::Change,
            Event::Free { .. } => Act::Change,
        }
    }

    /// What it logs: which cells it changed and how.
    #[inline(always)]
    pub(crate) fn logged(self) -> Option<CellRecord>
        ensures { result ≡ logged_of self }
    {
        match self {
            Event::Skip { .. } => None,
            Event::Start { .. } => None,
            Event::Scan { .. } => None,
            Event::Judge => None,
            Event::End => None,
            Event::Weaken { id, slot, target } => Some(CellRecord::Weaken { id, slot, target }),
            Event::Strengthen { id, slot, target } => {
                Some(CellRecord::Strengthen { id, slot, target })
            }
            Event::Flip { id } => Some(CellRecord::Flip { id }),
            Event::CutDead {
                id,
                slot,
                target,
                was_strong,
            } => Some(CellRecord::CutDead {
                id,
                slot,
                target,
                was_strong,
            }),
            Event::Free { id } => Some(CellRecord::Free { id }),
        }
    }

    /// The history's entry of it.
    pub(crate) fn entry(self) -> Entry
        ensures { result ≡ entry_of (logged_of self) }
    {
        match self {
            Event::Free { id } => Entry::Delete { id },
            _ => Entry::Hidden,
        }
    }
}
