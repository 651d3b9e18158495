//! Upkeep: pages are cleaned, and the log is turned.
ghost use Rattle.std.specs.Prelude.{◌≡◌, ◌↔◌, ℕ, ◌<◌, ◌≤◌, [], ◌∷◌, ◌++◌, true, length, vec_len, vec_capacity, None, Some, IfOk, IfErr, IsSome};
ghost use Rattle.disk_model.specs.Time.{LeavesOnlyImages};
ghost use Rattle.core_store.specs.Frames.{AllAgree};
ghost use Rattle.core_store.specs.JournalView.{cells_of};
ghost use Rattle.logged_journal.specs.Opens.{OpensAfter};
ghost use Rattle.logged_journal.specs.Records.{MayHaveAll};
ghost use Rattle.logged_journal.specs.View.{LoggedView, history_of};
ghost use Rattle.shared_store.specs.Chronicles.Since.{OpensSince};
ghost use Rattle.latch_table.specs.Rule.{HasMet};
ghost use Rattle.latch_table.specs.Views.{page_claimed};
ghost use Rattle.latch_table.specs.Holds.{IsAnother};
ghost use Rattle.shared_store.specs.Acts.{Acts, Takes};
ghost use Rattle.shared_store.specs.Calls.{GoesOnAs, WasNoted};
ghost use Rattle.shared_store.specs.Holding.{HasJournal, pairs_of, with_pages};
ghost use Rattle.shared_store.specs.Upkeep.{DoesCleanOn, DoesTurnOn, MakesClean, MakesTurn, entered_by_upkeep_of, marked_by_upkeep_of, found_by_upkeep, refused_by_upkeep_of, held_from};

use crate::chronicle::JournalChronicle;
use crate::counting::count_upkeep;
use crate::noting::know_noted;
use crate::pass::Pass;
use crate::refused::Refused;
use crate::store::Store;
use core_store::{Frame, Three};
use disk_model::Disk;
use latch_table::{Held, Hold};
use logged_journal::Upkeep;
use std::alloc::Global;

/// Counts the answer.
fn count_answer(refused: &mut Refused, answer: &Result<Upkeep, Held>)
    ensures { refused.new ≡ refused_by_upkeep_of answer.now refused.old }
{
    match answer {
        Ok(upkeep) => count_upkeep(refused, *upkeep),
        Err(_) => {}
    }
}

/// Whether upkeep with this answer entered the history.
fn is_entered(answer: &Result<Upkeep, Held>) -> bool
    ensures { (result ≡ true) ↔ IsSome (entered_by_upkeep_of answer.now) }
{
    match answer {
        Ok(Upkeep::Done | Upkeep::Busy { .. }) => true,
        Ok(
            Upkeep::Stopped { .. }
            | Upkeep::TraceFull
            | Upkeep::LogFull
            | Upkeep::Memory
            | Upkeep::DiskFault,
        ) => false,
        Err(_) => false,
    }
}

impl<const SLOTS: usize, D: Disk> Store<SLOTS, D> {
    /// Cleans the page on the journal, where the pass has the log word.
    pub(crate) fn act_clean(
        &self,
        hold: &mut Hold<JournalChronicle<SLOTS, D>, Frame<SLOTS>>,
        journal: &mut JournalChronicle<SLOTS, D>,
        page: u16,
    ) -> Result<Upkeep, Held>
        requires of { hold.old.table ≡ self.now.table }
        requires journal { HasJournal SLOTS self.now.pages hold.old.view journal.old }
        requires page { page < self.now.pages }
        requires none { hold.old.view.hands.pages ≡ [] }
        ensures of { hold.new.table ≡ self.now.table }
        ensures acts { Acts SLOTS hold.old.view hold.new.view journal.old journal.new [] (entered_by_upkeep_of result) (marked_by_upkeep_of result) (found_by_upkeep result) }
        ensures noted { WasNoted SLOTS journal.old }
        ensures made { IfOk result (λ u. DoesCleanOn SLOTS D.faults D.may_leave journal.old journal.new page u) }
        ensures moments { IfOk result (λ _. LeavesOnlyImages D.moment D.left_since journal.old.disk journal.new.disk (MayHaveAll journal.old)) }
        ensures opens { IfOk result (λ _. LeavesOnlyImages D.moment D.left_since journal.old.disk journal.new.disk (OpensAfter SLOTS (history_of journal.old))) }
        ensures since { (began : LoggedView D) → OpensSince D.moment D.left_since SLOTS began journal.old → OpensSince D.moment D.left_since SLOTS began journal.new }
    {
        let _ = &self.latches;
        // What a power loss may leave, and what that opens to: this call hands the facts out.
        let _ = journal.logged().durable();
        know_noted(journal);
        if let Some(answer) = journal.refuse_clean() {
            journal.know_history();
            return Ok(answer);
        }
        journal.know_frames();
        let frame = match self.latches.claim_page(hold, page) {
            Ok(frame) => frame,
            Err(found) => return Err(found),
        };
        let answer = journal.clean(&frame, page);
        journal.know_history();
        self.latches.drop_page(hold, page, frame);
        Ok(answer)
    }

    /// Makes the page of this number last in place. It doesn't wait.
    pub fn clean(&self, pass: &mut Pass<SLOTS, D>, page: u16) -> Result<Upkeep, Held>
        requires of { pass.old.table ≡ self.now.table }
        requires page { page < self.now.pages }
        ensures of { pass.new.table ≡ self.now.table }
        ensures knows { GoesOnAs pass.old.view pass.new.view (entered_by_upkeep_of result) (found_by_upkeep result) }
        ensures refused { pass.new.refused ≡ refused_by_upkeep_of result pass.old.refused }
        ensures made { IfOk result (λ u. MakesClean D SLOTS D.faults D.may_leave D.moment D.left_since pass.old.view pass.new.view page u) }
    {
        let mut journal = match self.latches.claim_log(&mut pass.hold) {
            Ok(journal) => journal,
            Err(found) => return Err(found),
        };
        let answer = self.act_clean(&mut pass.hold, &mut journal, page);
        count_answer(&mut pass.refused, &answer);
        let entered = is_entered(&answer);
        let mut held = Three::new();
        pass.seen = self.finish(&mut pass.hold, journal, &mut held, entered, pass.seen);
        answer
    }

    /// Claims the page after these.
    fn claim_next(
        &self,
        hold: &mut Hold<JournalChronicle<SLOTS, D>, Frame<SLOTS>>,
        journal: &JournalChronicle<SLOTS, D>,
        frames: &mut Vec<Frame<SLOTS>>,
    ) -> Result<(), Held>
        requires of { hold.old.table ≡ self.now.table }
        requires journal { HasJournal SLOTS self.now.pages hold.old.view journal.now }
        requires pages { hold.old.view.hands.pages ≡ pairs_of (held_from 0 frames.old.items) }
        requires agree { AllAgree (cells_of journal.now.journal) frames.old.items }
        requires next { length frames.old.items < self.now.pages }
        requires room { vec_len frames.old < vec_capacity frames.old }
        ensures of { hold.new.table ≡ self.now.table }
        ensures agree { AllAgree (cells_of journal.now.journal) frames.new.items }
        ensures room { vec_capacity frames.old ≤ vec_capacity frames.new }
        ensures ok { IfOk result (λ _. (frame : Frame SLOTS) × (frames.new.items ≡ frames.old.items ++ frame ∷ []) × (hold.new.view ≡ page_claimed hold.old.view (length frames.old.items) frame)) }
        ensures met { IfErr result (λ h. (frames.new.items ≡ frames.old.items) × IsAnother hold.old.view h.seat × HasMet hold.old.view hold.new.view h.word h.seat) }
    {
        let _ = &self.latches;
        journal.know_frames();
        let frame = self.latches.claim_page(hold, frames.len() as u16)?;
        let pushed = frames.push(frame);
        let Ok(()) = pushed else { unreachable!() };
        Ok(())
    }

    /// Claims all pages, from the first one on.
    fn claim_all(
        &self,
        hold: &mut Hold<JournalChronicle<SLOTS, D>, Frame<SLOTS>>,
        journal: &JournalChronicle<SLOTS, D>,
        pages: usize,
        frames: &mut Vec<Frame<SLOTS>>,
    ) -> Result<(), Held>
        requires of { hold.old.table ≡ self.now.table }
        requires journal { HasJournal SLOTS self.now.pages hold.old.view journal.now }
        requires none { (frames.old.items ≡ []) × (hold.old.view.hands.pages ≡ []) }
        requires pages { (pages ≡ self.now.pages) × (pages ≤ vec_capacity frames.old) }
        ensures of { hold.new.table ≡ self.now.table }
        ensures agree { AllAgree (cells_of journal.now.journal) frames.new.items }
        ensures few { length frames.new.items ≤ 1024 }
        ensures ok { IfOk result (λ _. (length frames.new.items ≡ pages) × Takes hold.old.view hold.new.view (pairs_of (held_from 0 frames.new.items)) None) }
        ensures met { IfErr result (λ h. IsAnother hold.old.view h.seat × Takes hold.old.view hold.new.view (pairs_of (held_from 0 frames.new.items)) (Some (h.word, h.seat))) }
    {
        let _ = &self.latches;
        'pages: for _ in 0..pages {
            self.claim_next(hold, journal, frames)?;
        }
        Ok(())
    }

    /// Gives the pages back, of which these are the first.
    fn drop_all(
        &self,
        hold: &mut Hold<JournalChronicle<SLOTS, D>, Frame<SLOTS>>,
        frames: &mut Vec<Frame<SLOTS>>,
    )
        requires of { hold.old.table ≡ self.now.table }
        requires pages { (hold.old.view.hands.pages ≡ pairs_of (held_from 0 frames.old.items)) × (hold.old.view.hands.moving ≡ None) }
        requires few { length frames.old.items ≤ 1024 }
        ensures of { hold.new.table ≡ self.now.table }
        ensures view { hold.new.view ≡ with_pages hold.old.view [] }
    {
        'pages: while let Some(frame) = frames.pop() {
            self.latches.drop_page(hold, frames.len() as u16, frame);
        }
    }

    /// Turns the log on the journal, where the pass has the log word.
    pub(crate) fn act_turn(
        &self,
        alloc: Global,
        hold: &mut Hold<JournalChronicle<SLOTS, D>, Frame<SLOTS>>,
        journal: &mut JournalChronicle<SLOTS, D>,
    ) -> Result<Upkeep, Held>
        requires of { hold.old.table ≡ self.now.table }
        requires journal { HasJournal SLOTS self.now.pages hold.old.view journal.old }
        requires none { hold.old.view.hands.pages ≡ [] }
        ensures of { hold.new.table ≡ self.now.table }
        ensures acts { Acts SLOTS hold.old.view hold.new.view journal.old journal.new [] (entered_by_upkeep_of result) (marked_by_upkeep_of result) (found_by_upkeep result) }
        ensures noted { WasNoted SLOTS journal.old }
        ensures made { IfOk result (λ u. DoesTurnOn SLOTS D.faults D.content D.may_leave journal.old journal.new u) }
        ensures moments { IfOk result (λ _. LeavesOnlyImages D.moment D.left_since journal.old.disk journal.new.disk (MayHaveAll journal.old)) }
        ensures opens { IfOk result (λ _. LeavesOnlyImages D.moment D.left_since journal.old.disk journal.new.disk (OpensAfter SLOTS (history_of journal.old))) }
        ensures since { (began : LoggedView D) → OpensSince D.moment D.left_since SLOTS began journal.old → OpensSince D.moment D.left_since SLOTS began journal.new }
    {
        let _ = &self.latches;
        // What a power loss may leave, and what that opens to: this call hands the facts out.
        let _ = journal.logged().durable();
        know_noted(journal);
        if let Some(answer) = journal.refuse_turn() {
            journal.know_history();
            return Ok(answer);
        }
        journal.know_history();
        let pages = journal.logged().journal().opening().len() / 8;
        let Ok(mut frames) = Vec::with_capacity(alloc, pages) else {
            return Ok(Upkeep::Memory);
        };
        if let Err(found) = self.claim_all(hold, journal, pages, &mut frames) {
            self.drop_all(hold, &mut frames);
            return Err(found);
        }
        let answer = journal.turn(frames.as_slice());
        journal.know_history();
        self.drop_all(hold, &mut frames);
        Ok(answer)
    }

    /// Turns the log: a checkpoint, after which it begins anew. The log and all pages are claimed, unless a transaction is
    /// active. It doesn't wait.
    pub fn turn(&self, alloc: Global, pass: &mut Pass<SLOTS, D>) -> Result<Upkeep, Held>
        requires of { pass.old.table ≡ self.now.table }
        ensures of { pass.new.table ≡ self.now.table }
        ensures knows { GoesOnAs pass.old.view pass.new.view (entered_by_upkeep_of result) (found_by_upkeep result) }
        ensures refused { pass.new.refused ≡ refused_by_upkeep_of result pass.old.refused }
        ensures made { IfOk result (λ u. MakesTurn D SLOTS D.faults D.content D.may_leave D.moment D.left_since pass.old.view pass.new.view u) }
    {
        let mut journal = match self.latches.claim_log(&mut pass.hold) {
            Ok(journal) => journal,
            Err(found) => return Err(found),
        };
        let answer = self.act_turn(alloc, &mut pass.hold, &mut journal);
        count_answer(&mut pass.refused, &answer);
        let entered = is_entered(&answer);
        let mut held = Three::new();
        pass.seen = self.finish(&mut pass.hold, journal, &mut held, entered, pass.seen);
        answer
    }
}
