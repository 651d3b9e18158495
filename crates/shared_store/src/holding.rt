//! Which pages a call claims, and how they are dropped.
ghost use Rattle.std.specs.Prelude.{◌≡◌, Contains, List, [], ◌∷◌, ◌++◌, None, Some, IfOk, IfErr};
ghost use Rattle.core_store.specs.Frames.{AreOnce, IsNext, pages_held};
ghost use Rattle.core_store.specs.JournalView.{cells_of};
ghost use Rattle.core_store.specs.Logged.{want_of};
ghost use Rattle.core_store.specs.Steppings.{IsReadyForCollector, OnlyLooks};
ghost use Rattle.core_store.specs.Work.{IsWorkIn, pages_of_work};
ghost use Rattle.latch_table.specs.Rule.{HasMet};
ghost use Rattle.latch_table.specs.Views.{page_claimed};
ghost use Rattle.latch_table.specs.Holds.{IsAnother};
ghost use Rattle.shared_store.specs.Chronicles.Steps.{GoesOnWith, no_mark, no_page};
ghost use Rattle.framed_journal.specs.Holding.{AreHeldOf};
ghost use Rattle.shared_store.specs.Acts.{Takes};
ghost use Rattle.shared_store.specs.Holding.{HasJournal, pairs_of, with_pages};

use crate::chronicle::JournalChronicle;
use crate::store::Store;
use core_store::{Frame, Three, Want, Work};
use disk_model::Disk;
use latch_table::{Held, Hold};

impl<const SLOTS: usize, D: Disk> Store<SLOTS, D> {
    /// Claims the page, and holds its frame too.
    pub(crate) fn claim_one(
        &self,
        hold: &mut Hold<JournalChronicle<SLOTS, D>, Frame<SLOTS>>,
        journal: &JournalChronicle<SLOTS, D>,
        page: u16,
        held: &mut Three<SLOTS>,
    ) -> Result<(), Held>
        requires of { hold.old.table ≡ self.now.table }
        requires journal { HasJournal SLOTS self.now.pages hold.old.view journal.now }
        requires held { AreHeldOf journal.now.journal held.old × (hold.old.view.hands.pages ≡ pairs_of held.old) }
        requires next { IsNext journal.now.journal.history.ids held.old page }
        ensures of { hold.new.table ≡ self.now.table }
        ensures held { AreHeldOf journal.now.journal held.new }
        ensures once { AreOnce held.old → AreOnce held.new }
        ensures ok { IfOk result (λ _. (frame : Frame SLOTS) × (held.new ≡ held.old ++ record { page = page; frame = frame } ∷ []) × (hold.new.view ≡ page_claimed hold.old.view page frame)) }
        ensures word { IfErr result (λ h. h.word ≡ page) }
        ensures met { IfErr result (λ h. (held.new ≡ held.old) × IsAnother hold.old.view h.seat × HasMet hold.old.view hold.new.view h.word h.seat) }
    {
        journal.know_frames();
        let frame = self.latches.claim_page(hold, page)?;
        held.put(page, &frame);
        Ok(())
    }

    /// Claims the pages that this work needs.
    pub(crate) fn claim_for_work(
        &self,
        hold: &mut Hold<JournalChronicle<SLOTS, D>, Frame<SLOTS>>,
        journal: &JournalChronicle<SLOTS, D>,
        work: Option<Work>,
        held: &mut Three<SLOTS>,
    ) -> Result<(), Held>
        requires of { hold.old.table ≡ self.now.table }
        requires journal { HasJournal SLOTS self.now.pages hold.old.view journal.now }
        requires work { IsWorkIn SLOTS journal.now.journal.history.ids (cells_of journal.now.journal) work }
        requires none { (held.old ≡ []) × (hold.old.view.hands.pages ≡ []) }
        ensures of { hold.new.table ≡ self.now.table }
        ensures held { AreHeldOf journal.now.journal held.new }
        ensures once { AreOnce held.new }
        ensures ready { IfOk result (λ _. want_of (pages_of_work (cells_of journal.now.journal) work) (pages_held held.new) ≡ Want.Ready) }
        ensures needed { IfErr result (λ h. Contains (pages_of_work (cells_of journal.now.journal) work) h.word) }
        ensures ok { IfOk result (λ _. Takes hold.old.view hold.new.view (pairs_of held.new) None) }
        ensures met { IfErr result (λ h. IsAnother hold.old.view h.seat × Takes hold.old.view hold.new.view (pairs_of held.new) (Some (h.word, h.seat))) }
    {
        let _ = &self.latches;
        'pages: while let Want::Page(page) = journal.logged().journal().wants_for(work, held) {
            self.claim_one(hold, journal, page, held)?;
        }
        Ok(())
    }

    /// Claims the pages that the collector's next event needs. It looks at what they show, and goes on where there is nothing to
    /// do.
    pub(crate) fn claim_for_collector(
        &self,
        hold: &mut Hold<JournalChronicle<SLOTS, D>, Frame<SLOTS>>,
        journal: &mut JournalChronicle<SLOTS, D>,
        held: &mut Three<SLOTS>,
    ) -> Result<(), Held>
        requires of { hold.old.table ≡ self.now.table }
        requires journal { HasJournal SLOTS self.now.pages hold.old.view journal.old }
        requires none { (held.old ≡ []) × (hold.old.view.hands.pages ≡ []) }
        ensures of { hold.new.table ≡ self.now.table }
        ensures held { AreHeldOf journal.new.journal held.new }
        ensures once { AreOnce held.new }
        ensures ready { IfOk result (λ _. IsReadyForCollector journal.new.journal held.new) }
        ensures looks { OnlyLooks SLOTS journal.old.journal journal.new.journal }
        ensures same { journal.new ≡ record journal.old { journal = journal.new.journal } }
        ensures chronicle { GoesOnWith SLOTS no_page journal.old journal.new None no_mark }
        ensures ok { IfOk result (λ _. Takes hold.old.view hold.new.view (pairs_of held.new) None) }
        ensures met { IfErr result (λ h. IsAnother hold.old.view h.seat × Takes hold.old.view hold.new.view (pairs_of held.new) (Some (h.word, h.seat))) }
    {
        let _ = &self.latches;
        'pages: loop {
            match journal.wants_collect_step(held) {
                Want::Page(page) => {
                    self.claim_one(hold, journal, page, held)?;
                }
                Want::LetGo => self.drop_held(hold, held),
                Want::Ready => return Ok(()),
            }
        }
    }

    /// Gives the held pages back, with their frames.
    pub(crate) fn drop_held(
        &self,
        hold: &mut Hold<JournalChronicle<SLOTS, D>, Frame<SLOTS>>,
        held: &mut Three<SLOTS>,
    )
        requires of { hold.old.table ≡ self.now.table }
        requires pages { (hold.old.view.hands.pages ≡ pairs_of held.old) × (hold.old.view.hands.moving ≡ None) }
        requires once { AreOnce held.old }
        ensures of { hold.new.table ≡ self.now.table }
        ensures view { hold.new.view ≡ with_pages hold.old.view [] }
        ensures none { held.new ≡ [] }
    {
        'pages: while let Some((page, frame)) = held.take() {
            self.latches.drop_page(hold, page, frame);
        }
    }
}
