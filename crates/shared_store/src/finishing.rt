//! What a call does after its work on the journal: it tells of the entry, and gives back what it has.
ghost use Rattle.std.specs.Prelude.{◌≡◌, ◌<◌, ◌≤◌, [], ◌∷◌, ◌++◌, length, true, false};
ghost use Rattle.latch_table.specs.Views.{log_dropped, log_of};
ghost use Rattle.latch_table.specs.Steps.{IsNext, told_of};
ghost use Rattle.shared_store.specs.Chronicles.Since.{OpensSince};
ghost use Rattle.shared_store.specs.Chronicles.View.{account, marks_of, notes_of};
ghost use Rattle.shared_store.specs.Acts.{IsToDrop};
ghost use Rattle.shared_store.specs.Holding.{with_pages};

use crate::chronicle::JournalChronicle;
use crate::store::Store;
use core_store::{Frame, Note, Three};
use disk_model::Disk;
use latch_table::{Chronicle, Hold};

impl<const SLOTS: usize, D: Disk> Store<SLOTS, D> {
    /// Tells of the entry that the journal has more, if the call entered one: this is the event. Gives the length that the
    /// history is known to have had.
    fn tell_if(
        &self,
        entered: bool,
        hold: &mut Hold<JournalChronicle<SLOTS, D>, Frame<SLOTS>>,
        journal: &JournalChronicle<SLOTS, D>,
        seen: u64,
    ) -> u64
        requires of { hold.old.table ≡ self.now.table }
        requires next { entered ≡ true → IsNext (account D SLOTS) self.now.pages hold.old.view journal.now }
        requires seen { seen ≡ hold.old.view.knowledge.seen }
        ensures of { hold.new.table ≡ self.now.table }
        ensures told { entered ≡ true → (note : Note) × (notes_of journal.now ≡ log_of hold.old.view ++ note ∷ []) × (hold.new.view ≡ told_of (account D SLOTS) hold.old.view journal.now note) }
        ensures same { entered ≡ false → hold.new.view ≡ hold.old.view }
        ensures seen { result ≡ hold.new.view.knowledge.seen }
    {
        if !entered {
            return seen;
        }
        self.latches.append(hold, journal);
        journal.len()
    }

    /// Tells of the entry that the journal has more than so many, if it has one more: this is the event.
    pub(crate) fn tell(
        &self,
        hold: &mut Hold<JournalChronicle<SLOTS, D>, Frame<SLOTS>>,
        journal: &JournalChronicle<SLOTS, D>,
        before: u64,
    )
        requires of { hold.old.table ≡ self.now.table }
        requires next { before < length (notes_of journal.now) → IsNext (account D SLOTS) self.now.pages hold.old.view journal.now }
        ensures of { hold.new.table ≡ self.now.table }
        ensures told { before < length (notes_of journal.now) → (note : Note) × (notes_of journal.now ≡ log_of hold.old.view ++ note ∷ []) × (hold.new.view ≡ told_of (account D SLOTS) hold.old.view journal.now note) }
        ensures same { length (notes_of journal.now) ≤ before → hold.new.view ≡ hold.old.view }
    {
        if before < journal.len() {
            self.latches.append(hold, journal);
        }
    }

    /// Tells of the entry, if one was entered, and gives all words back. Gives the length that the history is known to have had.
    pub(crate) fn finish(
        &self,
        hold: &mut Hold<JournalChronicle<SLOTS, D>, Frame<SLOTS>>,
        journal: JournalChronicle<SLOTS, D>,
        held: &mut Three<SLOTS>,
        entered: bool,
        seen: u64,
    ) -> u64
        requires of { hold.old.table ≡ self.now.table }
        requires drop { IsToDrop SLOTS self.now.pages hold.old.view journal held.old entered }
        requires since { OpensSince D.moment D.left_since SLOTS self.now.began journal }
        requires seen { seen ≡ hold.old.view.knowledge.seen }
        ensures of { hold.new.table ≡ self.now.table }
        ensures told { entered ≡ true → (note : Note) × (notes_of journal ≡ log_of hold.old.view ++ note ∷ []) × (hold.new.view ≡ log_dropped (with_pages (told_of (account D SLOTS) hold.old.view journal note) []) (marks_of journal)) }
        ensures same { entered ≡ false → hold.new.view ≡ log_dropped (with_pages hold.old.view []) (marks_of journal) }
        ensures seen { result ≡ hold.new.view.knowledge.seen }
    {
        let _ = &self.latches;
        journal.know_frames();
        let seen = self.tell_if(entered, hold, &journal, seen);
        self.drop_held(hold, held);
        self.latches.drop_log(hold, journal);
        seen
    }
}
