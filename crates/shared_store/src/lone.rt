//! A store whose first hold stays the only one, and has all words between calls.
ghost use Rattle.std.specs.Prelude.{◌≡◌, ◌*◌, ◌≤◌, [], length, None, IfOk, IfErr};
ghost use Rattle.cell_page.specs.Format.{IsSlotCount};
ghost use Rattle.core_store.specs.Frames.{AllAgree};
ghost use Rattle.core_store.specs.JournalView.{cells_of};

use crate::chronicle::JournalChronicle;
use crate::store::Store;
use core_store::{Frame, Three};
use disk_model::Disk;
use latch_table::{Hold, Latches};
use logged_journal::LoggedJournal;
use std::alloc::Global;
use std::marker::Model;

/// A store whose first hold stays the only one. Between calls that has all words, the log's and each page's: so the journal and
/// all frames stay in its hand. It takes each client's number for its name before it works for that client, and tells of each
/// entry by a store to the length word.
///
/// A [`crate::Pass`] has no word between calls. No pass is made of this store, so nobody is there to meet a word.
#[derive(Drop)]
pub struct LoneStore<const SLOTS: usize, D: Disk> {
    pub(crate) store: Store<SLOTS, D>,
    pub(crate) hold: Hold<JournalChronicle<SLOTS, D>, Frame<SLOTS>>,
    pub(crate) journal: JournalChronicle<SLOTS, D>,
    /// The frames of all pages.
    pub(crate) held: Three<SLOTS>,
}

/// Contracts see the journal with its log.
impl<const SLOTS: usize, D: Disk> Model for LoneStore<SLOTS, D> {
    ghost use Rattle.logged_journal.specs.View.{LoggedView};
    ghost use Rattle.shared_store.specs.Lone.{IsLone};

    ghost Value = { LoggedView D };

    ghost view = { λ s. s.journal };

    ghost invariant = { λ s. IsLone SLOTS s.store s.hold s.journal s.held };
}

impl<const SLOTS: usize, D: Disk> LoneStore<SLOTS, D> {
    /// The store over this journal, whose history is empty. Where there is no memory the journal and the frames come back.
    pub fn new(
        alloc: Global,
        logged: LoggedJournal<SLOTS, D>,
        frames: Vec<Frame<SLOTS>>,
    ) -> Result<LoneStore<SLOTS, D>, (LoggedJournal<SLOTS, D>, Vec<Frame<SLOTS>>)>
        requires size { IsSlotCount SLOTS }
        requires running { logged.failed ≡ None }
        requires empty { logged.journal.notes ≡ [] }
        requires few { (1 ≤ length frames.items) × (length frames.items ≤ 1024) }
        requires pages { 8 * length frames.items ≡ logged.journal.history.ids }
        requires agree { AllAgree (cells_of logged.journal) frames.items }
        ensures ok { IfOk result (λ s. s ≡ logged) }
        ensures back { IfErr result (λ r. (r.0 ≡ logged) × (r.1.items ≡ frames.entry.items)) }
    {
        let boxed = JournalChronicle::new(alloc, logged, frames.as_slice());
        let journal = match boxed {
            Ok(journal) => journal,
            Err(logged) => return Err((logged, frames)),
        };
        journal.know_frames();
        match Latches::new_in_hand(alloc, &journal, &frames) {
            Ok((latches, hold)) => Ok(LoneStore {
                store: Store { latches },
                hold,
                journal,
                held: Three::whole(frames),
            }),
            Err(_) => Err((journal.into_logged(), frames)),
        }
    }

    /// The journal with its log.
    pub fn logged(&self) -> &LoggedJournal<SLOTS, D>
        ensures logged { result.now ≡ self.now }
        ensures slots { self.now.journal.history.slots ≡ SLOTS }
    {
        self.journal.logged()
    }

    /// How many pages the store has.
    pub fn pages(&self) -> u16
        ensures value { 8 * result ≡ self.now.journal.history.ids }
        ensures some { 1 ≤ result }
        ensures few { result ≤ 1024 }
    {
        self.store.pages()
    }

    /// The journal with its log alone. The frames are let go, and the words with them.
    pub fn into_logged(self) -> LoggedJournal<SLOTS, D>
        ensures { result ≡ self }
    {
        let LoneStore {
            store: _,
            hold: _,
            journal,
            held: _,
        } = self;
        journal.into_logged()
    }
}
