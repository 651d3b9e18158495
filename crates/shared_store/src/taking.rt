//! What a hold that is alone does: it claims the pages of a small store again, and changes its name.
ghost use Rattle.std.specs.Prelude.{◌≡◌, ◌≤◌, []};
ghost use Rattle.latch_table.specs.Views.{renamed};
ghost use Rattle.latch_table.specs.Holds.{IsAlone};
ghost use Rattle.shared_store.specs.Holding.{HasJournal};
ghost use Rattle.shared_store.specs.Lone.{TakesAll};

use crate::chronicle::JournalChronicle;
use crate::store::Store;
use core_store::{Frame, Three};
use disk_model::Disk;
use latch_table::Hold;

impl<const SLOTS: usize, D: Disk> Store<SLOTS, D> {
    /// How many pages the store has.
    pub(crate) fn pages(&self) -> u16
        ensures { result ≡ self.now.pages }
    {
        self.latches.pages()
    }

    /// Gives the one hold that is out the name of this client.
    pub(crate) fn rename(
        &self,
        hold: &mut Hold<JournalChronicle<SLOTS, D>, Frame<SLOTS>>,
        client: u8,
    )
        requires of { hold.old.table ≡ self.now.table }
        requires alone { IsAlone hold.old.view }
        ensures of { hold.new.table ≡ self.now.table }
        ensures view { hold.new.view ≡ renamed hold.old.view client }
    {
        self.latches.rename(hold, client);
    }

    /// Claims all pages of a store of at most three, from the first one on.
    pub(crate) fn take_few(
        &self,
        hold: &mut Hold<JournalChronicle<SLOTS, D>, Frame<SLOTS>>,
        journal: &JournalChronicle<SLOTS, D>,
        held: &mut Three<SLOTS>,
    )
        requires of { hold.old.table ≡ self.now.table }
        requires alone { IsAlone hold.old.view }
        requires journal { HasJournal SLOTS self.now.pages hold.old.view journal.now }
        requires none { (held.old ≡ []) × (hold.old.view.hands.pages ≡ []) }
        requires few { self.now.pages ≤ 3 }
        ensures of { hold.new.table ≡ self.now.table }
        ensures taken { TakesAll SLOTS self.now.pages hold.old.view hold.new.view journal.now held.new }
    {
        let _ = &self.latches;
        let count = self.latches.pages();
        'pages: for page in 0..count {
            let claimed = self.claim_one(hold, journal, page, held);
            let Ok(()) = claimed else { unreachable!() };
        }
    }
}
