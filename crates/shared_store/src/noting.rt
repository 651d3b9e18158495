//! What a journal is as a call finds it.
ghost use Rattle.shared_store.specs.Calls.{WasNoted};

use crate::chronicle::JournalChronicle;
use disk_model::Disk;

/// The journal is sound, and as its notes give it, with the history that they give.
pub(crate) fn know_noted<const SLOTS: usize, D: Disk>(journal: &JournalChronicle<SLOTS, D>)
    ensures { WasNoted SLOTS journal.now }
{
    journal.know_history();
    let _ = journal.logged().journal().history();
}
