//! The store, and how passes are made and taken in.
ghost use Rattle.std.specs.Prelude.{◌≡◌, ◌⊎◌, ◌↔◌, ℕ, ◌*◌, ◌<◌, ◌≤◌, [], ◌∷◌, true, length, is_some, None, IfOk, IfErr};
ghost use Rattle.plain_model.specs.History.{IsLegal, end_of};
ghost use Rattle.plain_model.specs.Machine.{transaction_of};
ghost use Rattle.cell_page.specs.Format.{IsSlotCount};
ghost use Rattle.cell_page.specs.Stored.{HoldsPage};
ghost use Rattle.core_store.specs.Frames.{AllAgree};
ghost use Rattle.core_store.specs.JournalView.{cells_of};
ghost use Rattle.logged_journal.specs.View.{history_of};
ghost use Rattle.latch_table.specs.Views.{first_view, split_left, split_right, joined};
ghost use Rattle.latch_table.specs.Holds.{IsAlone, MaySplit};
ghost use Rattle.latch_table.specs.Rule.{HaveHistory, IsWhole, MetClaimed, all_free};
ghost use Rattle.shared_store.specs.Chronicles.Since.{OpensSince};
ghost use Rattle.shared_store.specs.Chronicles.View.{account, origin_of, notes_of, marks_of, history_after, frame_after, has_transaction};
ghost use Rattle.shared_store.specs.Passes.{AreMarked, no_refusals, joined_refusals};
ghost use Rattle.shared_store.specs.Stores.{Peeks};

use crate::answers::Peek;
use crate::chronicle::JournalChronicle;
use crate::counting::{joined, none};
use crate::pass::Pass;
use cell_page::page_of;
use core_store::Frame;
use disk_model::Disk;
use latch_table::Latches;
use logged_journal::LoggedJournal;
use std::alloc::Global;
use std::marker::Model;

/// A journal with its log, and the frames of all its pages, which threads share.
#[derive(Drop)]
pub struct Store<const SLOTS: usize, D: Disk> {
    pub(crate) latches: Latches<JournalChronicle<SLOTS, D>, Frame<SLOTS>>,
}

/// Contracts see which table it is, how many pages it has, and the journal with which it began.
impl<const SLOTS: usize, D: Disk> Model for Store<SLOTS, D> {
    ghost use Rattle.logged_journal.specs.View.{LoggedView};
    ghost use Rattle.latch_table.specs.Holds.{TableView};
    ghost use Rattle.shared_store.specs.Stores.{IsStore};

    ghost Value = { TableView (LoggedView D) };

    ghost view = { λ s. s.latches };

    ghost invariant = { λ s. IsStore SLOTS s.latches };
}

impl<const SLOTS: usize, D: Disk> Store<SLOTS, D> {
    /// The store over this journal, whose history is empty, with its first pass, the main one. Where there is no memory the
    /// journal and the frames come back.
    pub fn new(
        alloc: Global,
        logged: LoggedJournal<SLOTS, D>,
        frames: Vec<Frame<SLOTS>>,
    ) -> Result<(Store<SLOTS, D>, Pass<SLOTS, D>), (LoggedJournal<SLOTS, D>, Vec<Frame<SLOTS>>)>
        requires size { IsSlotCount SLOTS }
        requires running { logged.failed ≡ None }
        requires empty { logged.journal.notes ≡ [] }
        requires few { (1 ≤ length frames.items) × (length frames.items ≤ 1024) }
        requires pages { 8 * length frames.items ≡ logged.journal.history.ids }
        requires agree { AllAgree (cells_of logged.journal) frames.items }
        ensures ok { IfOk result (λ r. (r.0.pages ≡ length frames.entry.items) × (r.1.table ≡ r.0.table) × (r.1.view ≡ first_view (origin_of logged)) × (r.1.refused ≡ no_refusals)) }
        ensures began { IfOk result (λ r. r.0.began ≡ logged) }
        ensures back { IfErr result (λ r. (r.0 ≡ logged) × (r.1.items ≡ frames.entry.items)) }
    {
        let boxed = JournalChronicle::new(alloc, logged, frames.as_slice());
        let journal = match boxed {
            Ok(journal) => journal,
            Err(logged) => return Err((logged, frames)),
        };
        journal.know_frames();
        // What each image of the disk opens to now: this call hands the fact out.
        let _ = journal.logged().durable();
        match Latches::new(alloc, journal, frames) {
            Ok((latches, hold)) => {
                let pass = Pass {
                    hold,
                    main: true,
                    number: 0,
                    has_txn: false,
                    seen: 0,
                    refused: none(),
                    left: [false; 256],
                };
                Ok((Store { latches }, pass))
            }
            Err((journal, frames)) => Err((journal.into_logged(), frames)),
        }
    }

    /// A new pass of this number, which no pass that is out may have.
    pub fn share(&self, main: &mut Pass<SLOTS, D>, number: u8) -> Pass<SLOTS, D>
        requires of { main.old.table ≡ self.now.table }
        requires may { MaySplit main.old.view number }
        ensures of { (main.new.table ≡ self.now.table) × (result.table ≡ self.now.table) }
        ensures views { (main.new.view ≡ split_left main.old.view number) × (result.view ≡ split_right main.old.view number) }
        ensures refused { (main.new.refused ≡ main.old.refused) × (result.refused ≡ no_refusals) }
    {
        Pass {
            hold: self.latches.split(&mut main.hold, number),
            main: false,
            number,
            has_txn: main.left[usize::from(number)],
            seen: main.seen,
            refused: none(),
            left: [false; 256],
        }
    }

    /// The first pass takes in all that the other knew, and is the main one then.
    pub fn join(&self, main: &mut Pass<SLOTS, D>, other: Pass<SLOTS, D>)
        requires of { (main.old.table ≡ self.now.table) × (other.table ≡ self.now.table) }
        requires main { (main.old.view.station.main ≡ true) ⊎ ((other.view.station.main ≡ true) × (other.view.station.others ≡ 1)) }
        ensures of { main.new.table ≡ self.now.table }
        ensures view { main.new.view ≡ joined main.old.view other.view }
        ensures refused { main.new.refused ≡ joined_refusals main.old.refused other.refused }
    {
        let Pass {
            hold,
            main: _,
            number,
            has_txn,
            seen,
            refused,
            left,
        } = other;
        self.latches.join(&mut main.hold, hold);
        if !main.main {
            main.main = true;
            main.left = left;
        }
        main.left[usize::from(number)] = has_txn;
        main.seen = main.seen.max(seen);
        main.refused = joined(main.refused, refused);
    }

    /// The cell of this id, as it is at some moment of this call, with the length of the history then. It claims the word of the
    /// id's page alone, and takes no memory.
    pub fn peek(&self, pass: &mut Pass<SLOTS, D>, id: u32) -> Peek<SLOTS>
        requires of { pass.old.table ≡ self.now.table }
        requires id { (1 ≤ id) × (id ≤ 8 * self.now.pages) }
        ensures of { pass.new.table ≡ self.now.table }
        ensures peeks { Peeks pass.old.view pass.new.view id result }
        ensures refused { pass.new.refused ≡ pass.old.refused }
    {
        let _ = &self.latches;
        let page = page_of(id);
        match self.latches.claim_page(&mut pass.hold, page) {
            Err(found) => Peek::Again {
                word: found.word,
                seat: found.seat,
            },
            Ok(frame) => {
                let seen = self.latches.load(&mut pass.hold);
                pass.seen = seen;
                let cell = *frame.page.cell(id);
                self.latches.drop_page(&mut pass.hold, page, frame);
                Peek::Cell { seen, cell }
            }
        }
    }

    /// The journal and the frames, from the last pass. It knows of each entry that it stands there, once.
    pub fn close(self, main: Pass<SLOTS, D>) -> (LoggedJournal<SLOTS, D>, Vec<Frame<SLOTS>>)
        requires of { main.table ≡ self.table }
        requires alone { IsAlone main.view }
        ensures count { length result.1.items ≡ self.pages }
        ensures whole { IsWhole (account D SLOTS) main.view result.0 result.1.items }
        ensures legal { IsLegal (history_of result.0) }

        // The notes give the history, and tell which client has a transaction and what each page shows.
        ensures history { history_after SLOTS (origin_of result.0) (notes_of result.0) ≡ history_of result.0 }
        ensures clients { (client : ℕ) → has_transaction (notes_of result.0) client ≡ is_some (transaction_of (end_of (history_of result.0)).state client) }
        ensures page { (page : ℕ) (frame : Frame SLOTS) → 8 * page < result.0.journal.history.ids → HoldsPage (cells_of result.0.journal) page frame.page ↔ (frame ≡ frame_after SLOTS (origin_of result.0) (notes_of result.0) page) }
        ensures agree { AllAgree (cells_of result.0.journal) result.1.items }
        ensures marked { AreMarked main.refused (marks_of result.0) }

        // Each image that a power loss might have left since the store began, at any moment of any call, opens to a graph that a
        // crash after some first entries of the history may leave.
        ensures since { OpensSince D.moment D.left_since SLOTS self.began result.0 }

        // There is one history of all that happened to words, after which each is free. Each call that met another pass stands in it
        // where the word bore the number that was found.
        ensures latched { HaveHistory self.pages all_free (main.view ∷ []) }
        ensures met { MetClaimed self.pages main.view }
    {
        let Pass {
            hold,
            number: _,
            has_txn: _,
            seen: _,
            refused: _,
            left: _,
            main: _,
        } = main;
        let (journal, frames) = self.latches.close(hold);
        journal.know_history();
        journal.know_frames();
        (journal.into_logged(), frames)
    }
}
