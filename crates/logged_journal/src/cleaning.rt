//! A page is cleaned: an image of it lasts in the log, and the page in place.
ghost use Rattle.std.specs.Prelude.{◌≡◌, ◌≢◌, ◌⊎◌, ◌↔◌, ℕ, ◌+◌, ◌*◌, ◌<◌, ◌≤◌, [], true, false, length, IfSome, IsSome, None, OnOk, OnErr};
ghost use Rattle.disk_model.specs.declared.area.Area.TheVariants.{Pages};
ghost use Rattle.disk_model.specs.Told.{EachImage, KeepsOthers};
ghost use Rattle.disk_model.specs.Time.{LeavesOnlyImages};
ghost use Rattle.plain_model.specs.History.{end_of};
ghost use Rattle.cell_page.specs.Format.{Spells};
ghost use Rattle.cell_page.specs.Stored.{HoldsPage};
ghost use Rattle.gate_log.specs.Batches.{most_bytes};
ghost use Rattle.page_area.specs.Place.{bytes_of_page};
ghost use Rattle.core_store.specs.JournalView.{cells_of};
ghost use Rattle.core_store.specs.Limited.{is_past_limit};
ghost use Rattle.core_store.specs.Owed.{bytes_owed};
ghost use Rattle.logged_journal.specs.View.{IsPast, OnlyTakesRoom, bytes_counted, history_of, image_bytes, image_need, mark_at};
ghost use Rattle.logged_journal.specs.Records.{MayHaveAll};
ghost use Rattle.logged_journal.specs.Opens.{OpensAfter};
ghost use Rattle.logged_journal.specs.Upkeep.{IsClean, IsPastLogToClean, LogsWanted, Cleans, OnlyCleans, OnlyDisk, FailsUpkeep};

use crate::failed::FailedCall;
use crate::logged::LoggedJournal;
use crate::upkeep::Upkeep;
use core_store::{Frame, RoomRefusal};
use disk_model::{Disk, DiskFailed};
use page_area::write_in_place;

/// How many bytes a batch takes in the log beside its records.
pub(crate) const BATCH_BYTES: u64 = 5;

impl<const SLOTS: usize, D: Disk> LoggedJournal<SLOTS, D> {
    /// Writes the page in place, of which the log has an image that is current. What it wrote lasts once the pages were synced.
    ///
    /// [`DiskFailed`] comes only where the disk's count of faults rose in this call. The store is then stopped.
    fn write_page(&mut self, frame: &Frame<SLOTS>, page: u16) -> Result<(), DiskFailed>
        requires running { self.old.failed ≡ None }
        requires page { 8 * page < self.old.journal.history.ids }
        requires agree { HoldsPage (cells_of self.old.journal) page frame.now.page }
        requires current { (mark_at self.old.marks page).current ≡ true }
        requires empty { self.old.log.tail ≡ [] }
        ensures done { OnOk result (OnlyDisk self.old self.new) }
        ensures there { OnOk result (IfSome (D.content self.new.disk Pages) (λ area. Spells page frame.now.page (bytes_of_page SLOTS page area))) }
        ensures others { KeepsOthers D.content D.may_leave self.old.disk self.new.disk Pages }
        ensures fault { OnErr result (FailsUpkeep D.faults self.old self.new) }
        ensures later { D.faults self.old.disk ≤ D.faults self.new.disk }
        ensures count { OnOk result (D.faults self.new.disk ≡ D.faults self.old.disk) }
        ensures moments { LeavesOnlyImages D.moment D.left_since self.old.disk self.new.disk (MayHaveAll self.old) }
    {
        self.know_image(frame, page);
        if write_in_place::<D, SLOTS>(self.disk.as_mut(), page, &frame.page).is_err() {
            self.failed = Some(FailedCall {
                commit: None,
                faults: self.disk.faults(),
            });
            return Err(DiskFailed);
        }
        Ok(())
    }

    /// Makes the page last in place, of which the log has an image that is current.
    ///
    /// [`DiskFailed`] comes only where the disk's count of faults rose in this call. The store is then stopped.
    fn put_in_place(&mut self, frame: &Frame<SLOTS>, page: u16) -> Result<(), DiskFailed>
        requires running { self.old.failed ≡ None }
        requires page { 8 * page < self.old.journal.history.ids }
        requires agree { HoldsPage (cells_of self.old.journal) page frame.now.page }
        requires current { (mark_at self.old.marks page).current ≡ true }
        requires empty { self.old.log.tail ≡ [] }
        ensures done { OnOk result (OnlyDisk self.old self.new) }
        ensures clean { OnOk result (EachImage D.may_leave self.new.disk (IsClean page frame.now.page)) }
        ensures others { KeepsOthers D.content D.may_leave self.old.disk self.new.disk Pages }
        ensures fault { OnErr result (FailsUpkeep D.faults self.old self.new) }
        ensures later { D.faults self.old.disk ≤ D.faults self.new.disk }
        ensures count { OnOk result (D.faults self.new.disk ≡ D.faults self.old.disk) }
        ensures moments { LeavesOnlyImages D.moment D.left_since self.old.disk self.new.disk (MayHaveAll self.old) }
    {
        if self.write_page(frame, page).is_err() {
            return Err(DiskFailed);
        }
        if self.sync_pages().is_err() {
            return Err(DiskFailed);
        }
        self.know_image(frame, page);
        Ok(())
    }

    /// Appends an image of the page to the tail where none is current, in room that was taken for it. It takes no memory.
    fn log_wanted(&mut self, frame: &Frame<SLOTS>, page: u16)
        requires running { self.old.failed ≡ None }
        requires page { 8 * page < self.old.journal.history.ids }
        requires agree { HoldsPage (cells_of self.old.journal) page frame.now.page }
        requires room { bytes_owed (end_of self.old.journal.history) + image_bytes SLOTS ≤ self.old.log.room }
        requires bounded { bytes_counted self.old + image_bytes SLOTS ≤ most_bytes }
        ensures logged { LogsWanted self.old self.new page frame.now.page }
        ensures few { bytes_counted self.new ≤ bytes_counted self.old + image_bytes SLOTS }
    {
        if !self.marks.get(page).current {
            self.log_image(frame, page);
        }
    }

    /// Cleans the page. There is room for all that this needs, so it takes no memory.
    fn clean_in_room(&mut self, frame: &Frame<SLOTS>, page: u16) -> Upkeep
        requires running { self.old.failed ≡ None }
        requires page { 8 * page < self.old.journal.history.ids }
        requires agree { HoldsPage (cells_of self.old.journal) page frame.now.page }
        requires reserved { self.old.journal.reserved ≡ true }
        requires room { bytes_owed (end_of self.old.journal.history) + image_bytes SLOTS ≤ self.old.log.room }
        requires bounded { bytes_counted self.old + image_need SLOTS ≤ most_bytes }
        ensures answers { (result ≡ Upkeep.Done) ⊎ (result ≡ Upkeep.DiskFault) }
        ensures done { result ≡ Upkeep.Done → Cleans self.old self.new page frame.now.page }
        ensures clean { result ≡ Upkeep.Done → EachImage D.may_leave self.new.disk (IsClean page frame.now.page) }
        ensures fault { result ≡ Upkeep.DiskFault → FailsUpkeep D.faults self.old self.new }
        ensures later { D.faults self.old.disk ≤ D.faults self.new.disk }
        ensures count { result ≢ Upkeep.DiskFault → D.faults self.new.disk ≡ D.faults self.old.disk }
        ensures areas { OnlyCleans D.content D.may_leave self.old self.new page frame.now.page result }
        ensures moments { LeavesOnlyImages D.moment D.left_since self.old.disk self.new.disk (MayHaveAll self.old) }
    {
        self.log_wanted(frame, page);
        if self.force_all().is_err() {
            return Upkeep::DiskFault;
        }
        if self.put_in_place(frame, page).is_err() {
            return Upkeep::DiskFault;
        }
        self.hide();
        Upkeep::Done
    }

    /// What is answered where there is no memory: that the log is full, where so many bytes more would go past its limit.
    fn full_or_memory(&mut self, needed: u64) -> Upkeep
        requires running { self.old.failed ≡ None }
        requires few { needed ≤ image_need SLOTS }
        ensures answers { (result ≡ Upkeep.LogFull) ⊎ (result ≡ Upkeep.Memory) }
        ensures full { (result ≡ Upkeep.LogFull) ↔ IsPast self.old needed }
        ensures marked { result ≡ Upkeep.LogFull → self.new ≡ record self.old { log_full = true } }
        ensures memory { result ≡ Upkeep.Memory → self.new ≡ self.old }
        ensures same { self.new ≡ record self.old { log_full = self.new.log_full } }
    {
        if self.is_past(needed) {
            self.mark_full();
            return Upkeep::LogFull;
        }
        Upkeep::Memory
    }

    /// Cleans the page of this number, from 0, whose frame this is: an image of it joins the log where its last image isn't
    /// current, the log is forced, and the page is made to last in place. It changes no object, and enters an entry that says so.
    ///
    /// [`Upkeep::Stopped`] comes exactly where the disk failed a call before, [`Upkeep::TraceFull`] exactly where the history has
    /// no room for one entry, [`Upkeep::LogFull`] exactly where the page's image would go past the log's limit. These and
    /// [`Upkeep::Memory`] do nothing. [`Upkeep::DiskFault`] comes only where the disk's count of faults rose in this call; the
    /// store is then stopped. [`Upkeep::Busy`] never comes.
    pub fn clean(&mut self, frame: &Frame<SLOTS>, page: u16) -> Upkeep
        requires page { 8 * page < self.old.journal.history.ids }
        requires agree { HoldsPage (cells_of self.old.journal) page frame.now.page }
        ensures stopped { IfSome self.old.failed (λ f. (result ≡ Upkeep.Stopped f.faults) × (self.new ≡ self.old)) }
        ensures only_stopped { (faults : ℕ) → result ≡ Upkeep.Stopped faults → IsSome self.old.failed }
        ensures never_busy { (pass : ℕ) → result ≢ Upkeep.Busy pass }
        ensures full { (result ≡ Upkeep.TraceFull) ↔ (self.old.failed ≡ None) × (is_past_limit self.old.journal 1 ≡ true) }
        ensures marked { result ≡ Upkeep.TraceFull → self.new ≡ record self.old { journal = record self.old.journal { marks = record self.old.journal.marks { trace = true } } } }
        ensures log_full { (result ≡ Upkeep.LogFull) ↔ IsPastLogToClean SLOTS self.old }
        ensures log_marked { result ≡ Upkeep.LogFull → OnlyTakesRoom (record self.old { log_full = true }) self.new }
        ensures memory { result ≡ Upkeep.Memory → OnlyTakesRoom self.old self.new }
        ensures done { result ≡ Upkeep.Done → Cleans self.old self.new page frame.now.page }

        // After it each image of the disk has the page in place and as the log's last image of it.
        ensures clean { result ≡ Upkeep.Done → EachImage D.may_leave self.new.disk (IsClean page frame.now.page) }
        ensures fault { result ≡ Upkeep.DiskFault → FailsUpkeep D.faults self.old self.new }
        ensures later { D.faults self.old.disk ≤ D.faults self.new.disk }
        ensures count { result ≢ Upkeep.DiskFault → D.faults self.new.disk ≡ D.faults self.old.disk }

        // No area changes but the log's and the pages; where it was done the log has one batch more, of the tail and the image.
        ensures areas { OnlyCleans D.content D.may_leave self.old self.new page frame.now.page result }

        // At each moment of the call a power loss leaves a log of what was there for good before, or of all that was done. So
        // at each of them the store opens, to a graph that a crash before the call may leave.
        ensures moments { LeavesOnlyImages D.moment D.left_since self.old.disk self.new.disk (MayHaveAll self.old) }
        ensures opens { LeavesOnlyImages D.moment D.left_since self.old.disk self.new.disk (OpensAfter SLOTS (history_of self.old)) }
    {
        self.know_images();
        if let Some(failed) = self.failed() {
            return Upkeep::Stopped {
                faults: failed.faults,
            };
        }
        let image = self.bytes_of_image();
        match self.reserve_entry() {
            Ok(()) => {}
            Err(RoomRefusal::TraceFull) => return Upkeep::TraceFull,
            Err(RoomRefusal::Memory) => return self.full_or_memory(image + BATCH_BYTES),
        }
        if self.is_past(image + BATCH_BYTES) {
            self.mark_full();
            return Upkeep::LogFull;
        }
        if self.take_room(image).is_err() {
            return Upkeep::Memory;
        }
        self.clean_in_room(frame, page)
    }
}
