//! The journal with its log.
ghost use Rattle.std.specs.Prelude.{◌≡◌, ◌↔◌, ℕ, ◌+◌, ◌*◌, ◌<◌, ◌≤◌, List, [], true, false, is_some, length, IfOk, IfErr, IfSome, None};
ghost use Rattle.plain_model.specs.History.{with_entry};
ghost use Rattle.cell_model.specs.Consistent.{AreConsistent};
ghost use Rattle.restart_laws.specs.Graph.{zeros_of};
ghost use Rattle.disk_model.specs.declared.area.Area.TheVariants.{Pages};
ghost use Rattle.disk_model.specs.Areas.{Bytes};
ghost use Rattle.disk_model.specs.Causes.{Rose};
ghost use Rattle.disk_model.specs.Told.{EachImage, Leaves};
ghost use Rattle.cell_page.specs.Format.{IsSlotCount, page_size};
ghost use Rattle.gate_log.specs.declared.stage.Stage.TheVariants.{Standing};
ghost use Rattle.gate_log.specs.Batches.{most_bytes};
ghost use Rattle.gate_log.specs.State.{used};
ghost use Rattle.gate_log.specs.OnDisk.{IsOn};
ghost use Rattle.page_marks.specs.Marks.{IsMarkedBegun};
ghost use Rattle.core_store.specs.Opening.{ArePages, stored_in, opened_history};
ghost use Rattle.core_store.specs.Frames.{AllAgree};
ghost use Rattle.core_store.specs.JournalView.{cells_of};
ghost use Rattle.core_store.specs.Limited.{AreLimits};
ghost use Rattle.core_store.specs.RoundView.{Closed};
ghost use Rattle.core_store.specs.Safe.{IsDurable};
ghost use Rattle.logged_journal.specs.View.{IsPast, history_of, bytes_counted, image_need};
ghost use Rattle.logged_journal.specs.Records.{OpenedWith, HasRecords, MayBeLeft, durable_notes, with_commit};
ghost use Rattle.logged_journal.specs.Opens.{OpensAfter};
ghost use Rattle.logged_journal.specs.Kept.{CanCommit};

use crate::failed::FailedCall;
use crate::spell::image_len;
use core_store::{Frame, Journal, Limits, Marks};
use disk_model::Disk;
use gate_log::GateLog;
use page_marks::PageMarks;
use plain_model::{Call, Entry, Memory, Reply};
use std::alloc::{AllocError, AllocFailed, Global};
use std::marker::Model;

/// A journal whose events stand in a log on a disk, which it holds.
///
/// It goes on with a store that was opened, after what the log has then. Each event with a record appends it to the tail
/// of the log at the same event. A commit makes the tail last before its event, and is answered after that. Where the disk
/// fails that, the store is stopped: each later call answers so and does nothing, and the store has to be opened again.
#[derive(Drop)]
pub struct LoggedJournal<const SLOTS: usize, D: Disk> {
    pub(crate) journal: Journal<SLOTS>,
    /// In a place of its own, so that the size of a journal does not hang on that of its disk.
    pub(crate) disk: Box<D>,
    pub(crate) log: GateLog,
    /// The records of so many first notes are there for good.
    pub(crate) durable: usize,
    /// What the log tells of each page.
    pub(crate) marks: PageMarks,
    pub(crate) failed: Option<FailedCall>,
    pub(crate) log_full: bool,
    pub(crate) peak: u64,
    /// The disk's count of faults at the opening.
    pub(crate) opened: u64,
    /// An image, or what a log begins with, is spelled here.
    pub(crate) spelling: Vec<u8>,
}

impl<const SLOTS: usize, D: Disk> Model for LoggedJournal<SLOTS, D> {
    ghost use Rattle.std.specs.Prelude.{vec_capacity};
    ghost use Rattle.logged_journal.specs.View.{LoggedView};
    ghost use Rattle.logged_journal.specs.Inside.{view_of};
    ghost use Rattle.logged_journal.specs.Kept.{IsLoggedInside};

    ghost Value = { LoggedView D };

    ghost view = { view_of };

    ghost invariant = { λ s. IsLoggedInside D.may_leave D.faults SLOTS (view_of s) (vec_capacity s.spelling) };
}

impl<const SLOTS: usize, D: Disk> LoggedJournal<SLOTS, D> {
    /// The store that opens with these frames, one for each page from 0 on, on a disk on which its log stands: the pages
    /// and the log are what it opened to, its log tells of no transaction that hasn't ended, and the marks of the pages are
    /// those of its log. In it no transaction is active, and the log goes on after what it has. Where there is no memory the
    /// disk is handed back.
    pub fn resume(
        alloc: Global,
        disk: D,
        log: GateLog,
        marks: PageMarks,
        frames: &[Frame<SLOTS>],
        limits: Limits,
    ) -> Result<LoggedJournal<SLOTS, D>, (Memory, D)>
        requires size { IsSlotCount SLOTS }
        requires few { (1 ≤ length frames.now) × (length frames.now ≤ 1024) }
        requires pages { ArePages frames.now }
        requires consistent { AreConsistent SLOTS (8 * length frames.now) (stored_in frames.now) }
        requires limits { AreLimits limits }
        requires standing { (log.stage ≡ Standing) × (log.tail ≡ []) × (used log ≤ most_bytes) }
        requires marked { length marks ≡ length frames.now }
        requires begun { (batches : List (List ℕ)) × IsOn D.may_leave log disk batches
            × Leaves D.may_leave disk Pages (λ area. IsMarkedBegun SLOTS (length frames.now) area batches (stored_in frames.now) marks) }
        requires long { Leaves D.may_leave disk Pages (λ area. page_size SLOTS * length marks ≤ length area) }
        ensures opening { IfOk result (λ r. r.journal.opening ≡ stored_in frames.now) }
        ensures history { IfOk result (λ r. r.journal.history ≡ opened_history SLOTS (8 * length frames.now) (stored_in frames.now)) }
        ensures notes { IfOk result (λ r. (r.journal.notes ≡ []) × (r.durable ≡ 0)) }
        ensures limits { IfOk result (λ r. (r.journal.limits ≡ limits) × (r.journal.marks ≡ record { disk = false; trace = false; log = false })) }
        ensures collector { IfOk result (λ r. (r.journal.queue ≡ zeros_of (stored_in frames.now)) × (r.journal.round ≡ Closed)) }
        ensures marked { IfOk result (λ r. r.marks ≡ marks) }
        ensures running { IfOk result (λ r. (r.failed ≡ None) × (r.log_full ≡ false)) }
        ensures log { IfOk result (λ r. (r.log ≡ log) × (r.peak ≡ used log)) }
        ensures disk { IfOk result (λ r. r.disk ≡ disk) }
        ensures opened { IfOk result (λ r. r.opened ≡ D.faults disk) }
        ensures back { IfErr result (λ e. e.1 ≡ disk) }
        ensures agree { IfOk result (λ r. AllAgree (cells_of r.journal) frames.now) }
    {
        match Journal::resume(alloc, frames, limits) {
            Ok(journal) => LoggedJournal::begin(alloc, journal, disk, log, marks),
            Err(memory) => Err((memory, disk)),
        }
    }

    /// The journal of a store that has just opened, with its log, which stands on the disk and has an empty tail.
    fn begin(
        alloc: Global,
        journal: Journal<SLOTS>,
        disk: D,
        log: GateLog,
        marks: PageMarks,
    ) -> Result<LoggedJournal<SLOTS, D>, (Memory, D)>
        requires size { IsSlotCount SLOTS }
        requires slots { journal.history.slots ≡ SLOTS }
        requires ids { journal.history.ids ≡ 8 * length marks }
        requires notes { journal.notes ≡ [] }
        requires standing { (log.stage ≡ Standing) × (log.tail ≡ []) × (used log ≤ most_bytes) }
        requires begun { (batches : List (List ℕ)) × IsOn D.may_leave log disk batches × Leaves D.may_leave disk Pages (λ area. OpenedWith journal area batches marks) }
        requires long { Leaves D.may_leave disk Pages (λ area. page_size SLOTS * length marks ≤ length area) }
        ensures journal { IfOk result (λ r. (r.journal ≡ journal.entry) × (r.durable ≡ 0)) }
        ensures marked { IfOk result (λ r. r.marks ≡ marks) }
        ensures running { IfOk result (λ r. (r.failed ≡ None) × (r.log_full ≡ false)) }
        ensures log { IfOk result (λ r. (r.log ≡ log) × (r.peak ≡ used log)) }
        ensures disk { IfOk result (λ r. r.disk ≡ disk) }
        ensures opened { IfOk result (λ r. r.opened ≡ D.faults disk) }
        ensures back { IfErr result (λ e. e.1 ≡ disk) }
    {
        let mut spelling = Vec::new(alloc);
        if let Err(memory) = spelling.reserve(image_len::<SLOTS>()) {
            return Err((memory, disk));
        }
        let opened = disk.faults();
        let disk = match Box::new(alloc, disk) {
            Ok(disk) => disk,
            Err(AllocFailed { value }) => return Err((AllocError, value)),
        };
        let durable = journal.history().len();
        let peak = log.used();
        let logged = LoggedJournal {
            journal,
            disk,
            log,
            durable,
            marks,
            failed: None,
            log_full: false,
            peak,
            opened,
            spelling,
        };
        Ok(logged)
    }

    /// The journal: all that was done, but for a commit that the disk failed.
    pub fn journal(&self) -> &Journal<SLOTS>
        ensures journal { result.now ≡ self.now.journal }
        ensures slots { self.now.journal.history.slots ≡ SLOTS }
        ensures marked { self.now.journal.history.ids ≡ 8 * length self.now.marks }
    {
        &self.journal
    }

    /// The disk.
    pub fn disk(&self) -> &D
        ensures disk { result.now ≡ self.now.disk }
    {
        self.disk.as_ref()
    }

    /// The records of so many first notes are there for good.
    pub fn durable(&self) -> usize
        ensures value { result ≡ self.now.durable }
        ensures within { result ≤ length self.now.journal.notes }

        // A crash that keeps the records of just these notes is safe, and each commit that was done is among them.
        ensures lasting { IsDurable self.now.journal (durable_notes self.now) }

        // In each image of the disk the log has the records of these notes since it began, in order, and images of pages
        // among them; where the disk failed a call, those or the records of all notes, and of the commit where it was one.
        ensures images { EachImage D.may_leave self.now.disk (MayBeLeft self.now) }

        // And each image opens, to a graph that a crash may leave: each commit that was done is in it, and none in part.
        ensures opens { EachImage D.may_leave self.now.disk (OpensAfter SLOTS (history_of self.now)) }
    {
        self.know_images();
        self.durable
    }

    /// Each image of the disk has what a power loss may leave of the log. An image whose log has what a power loss may leave
    /// of it, or the records of all notes, opens to a graph that a crash may leave; where it has these and that of one commit
    /// more, to one that a crash may leave after the disk failed that.
    pub(crate) fn know_images(&self)
        ensures images { EachImage D.may_leave self.now.disk (MayBeLeft self.now) }
        ensures left { (image : Bytes) → MayBeLeft self.now image → OpensAfter SLOTS (history_of self.now) image }
        ensures all { (image : Bytes) → HasRecords self.now.journal self.now.journal.notes image → OpensAfter SLOTS self.now.journal.history image }
        ensures failing { (pass : ℕ) (image : Bytes) → CanCommit self.now.journal pass → HasRecords self.now.journal (with_commit self.now.journal.notes pass) image
            → OpensAfter SLOTS (with_entry self.now.journal.history (Entry.Call pass Call.Commit Reply.DiskFault)) image }
    {
        let _ = self.journal.history();
    }

    /// The call that the disk failed, if it failed one. Then no call does anything any more.
    pub fn failed(&self) -> Option<FailedCall>
        ensures failed { result ≡ self.now.failed }

        // Its count of faults is above that at the opening, or stands at its type's end.
        ensures counted { IfSome result (λ f. Rose self.now.opened f.faults) }

        // It isn't above the count now, and neither is that at the opening.
        ensures now { IfSome result (λ f. f.faults ≤ D.faults self.now.disk) }
        ensures opened { self.now.opened ≤ D.faults self.now.disk }

        // While it failed none, the disk's count is that at the opening.
        ensures none { result ≡ None → D.faults self.now.disk ≡ self.now.opened }
    {
        self.failed
    }

    /// Which answers were given.
    pub fn marks(&self) -> Marks
        ensures disk { result.disk ≡ is_some self.now.failed }
        ensures trace { result.trace ≡ self.now.journal.marks.trace }
        ensures log { result.log ≡ self.now.log_full }

        // Where a call was answered that the log is full, it nearly was.
        ensures full { result.log ≡ true → self.now.journal.limits.log < self.now.peak + image_need SLOTS }
    {
        Marks {
            disk: self.failed.is_some(),
            trace: self.journal.marks().trace,
            log: self.log_full,
        }
    }

    /// How many bytes of the log are in use. A call is told that the log is full where these, those that the active transactions
    /// owe, and those that it needs are more than the limit. A turn of the log sets them back to 15.
    pub fn log_used(&self) -> u64
        ensures value { result ≡ used self.now.log }
        ensures counted { self.now.failed ≡ None → result ≤ self.now.peak }
    {
        self.log.used()
    }

    /// The most bytes of the log that were in use and owed, at the opening or after a call.
    pub fn peak(&self) -> u64
        ensures value { result ≡ self.now.peak }
        ensures most { self.now.failed ≡ None → bytes_counted self.now ≤ result }
    {
        self.peak
    }

    /// Whether so many bytes more would go past the log's limit.
    pub(crate) fn is_past(&self, needed: u64) -> bool
        requires running { self.now.failed ≡ None }
        requires few { needed ≤ image_need SLOTS }
        ensures past { (result ≡ true) ↔ IsPast self.now needed }
        ensures limits { AreLimits self.now.journal.limits }
    {
        self.log.used() + self.journal.bytes_owed() + needed > self.journal.limits().log
    }

    /// Marks that a call was answered that the log is full.
    pub(crate) fn mark_full(&mut self)
        requires running { self.old.failed ≡ None }
        requires past { (needed : ℕ) × (needed ≤ image_need SLOTS) × IsPast self.old needed }
        ensures marked { self.new ≡ record self.old { log_full = true } }
    {
        self.log_full = true;
    }

    /// The disk, without the journal.
    pub fn into_disk(self) -> D
        ensures disk { result ≡ self.disk }
    {
        Box::into_inner(self.disk)
    }
}
