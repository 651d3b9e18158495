//! The steps of upkeep: an image joins the tail, the tail is made to last, and so are the pages.
ghost use Rattle.std.specs.Prelude.{◌≡◌, ◌↔◌, ℕ, ◌+◌, ◌*◌, ◌<◌, ◌≤◌, [], true, false, length, option_map, None, OnOk, OnErr, IsErrOf};
ghost use Rattle.disk_model.specs.declared.area.Area.TheVariants.{Pages};
ghost use Rattle.disk_model.specs.Told.{EachImage, Leaves, IsSettled, KeepsAll, KeepsOthers};
ghost use Rattle.disk_model.specs.Time.{LeavesOnlyImages};
ghost use Rattle.plain_model.specs.History.{end_of};
ghost use Rattle.cell_page.specs.Stored.{HoldsPage};
ghost use Rattle.gate_log.specs.Batches.{most_bytes};
ghost use Rattle.gate_log.specs.State.{IsLogArea, forced_area};
ghost use Rattle.opened_images.specs.Marks.{StandsInPlace};
ghost use Rattle.core_store.specs.JournalView.{cells_of};
ghost use Rattle.core_store.specs.Limited.{is_past_limit};
ghost use Rattle.core_store.specs.Owed.{bytes_owed};
ghost use Rattle.core_store.specs.Upkeep.{with_upkeep};
ghost use Rattle.logged_journal.specs.View.{bytes_counted, image_bytes, mark_at};
ghost use Rattle.logged_journal.specs.Records.{MayHaveAll};
ghost use Rattle.logged_journal.specs.Upkeep.{HasImage, LogsImage, ForcesAll, OnlyDisk, FailsUpkeep};

use crate::failed::FailedCall;
use crate::logged::LoggedJournal;
use crate::spell::{append_image, image_len};
use crate::typed::know_page;
use core_store::{Frame, RoomRefusal};
use disk_model::{Area, Disk, DiskFailed};
use plain_model::Entry;
use std::alloc::AllocError;

impl<const SLOTS: usize, D: Disk> LoggedJournal<SLOTS, D> {
    /// Where the tail is empty and the page's image is current, each image of the disk has the page as it is as the log's last
    /// image of it.
    pub(crate) fn know_image(&self, frame: &Frame<SLOTS>, page: u16)
        requires running { self.now.failed ≡ None }
        requires page { 8 * page < self.now.journal.history.ids }
        requires agree { HoldsPage (cells_of self.now.journal) page frame.now.page }
        requires current { (mark_at self.now.marks page).current ≡ true }
        requires empty { self.now.log.tail ≡ [] }
        ensures image { EachImage D.may_leave self.now.disk (HasImage page frame.now.page) }
    {
        let _ = self.journal.history();
        know_page(page, &frame.page);
    }

    /// A page that is not marked as changed stands in place, whatever a power loss leaves.
    pub(crate) fn know_unchanged(&self)
        requires running { self.now.failed ≡ None }
        ensures unchanged { (page : ℕ) → 8 * page < self.now.journal.history.ids → (mark_at self.now.marks page).changed ≡ false
            → Leaves D.may_leave self.now.disk Pages (λ area. StandsInPlace SLOTS area (cells_of self.now.journal) page) }
    {
        let _ = self.journal.history();
    }

    /// Reserves room for one entry of upkeep.
    pub(crate) fn reserve_entry(&mut self) -> Result<(), RoomRefusal>
        ensures full { IsErrOf result RoomRefusal.TraceFull ↔ (is_past_limit self.old.journal 1 ≡ true) }
        ensures marked { IsErrOf result RoomRefusal.TraceFull → self.new ≡ record self.old { journal = record self.old.journal { marks = record self.old.journal.marks { trace = true } } } }
        ensures memory { IsErrOf result RoomRefusal.Memory → self.new ≡ self.old }
        ensures reserved { OnOk result (self.new ≡ record self.old { journal = record self.old.journal { reserved = true } }) }
        ensures same { self.new ≡ record self.old { journal = self.new.journal } }
    {
        self.journal.reserve_entry()
    }

    /// How many bytes the image of a page takes in the log.
    pub(crate) fn bytes_of_image(&self) -> u64
        ensures { result ≡ image_bytes SLOTS }
    {
        let _ = &self.journal;
        image_len::<SLOTS>() as u64
    }

    /// Takes room in the log for so many bytes, beside those that the active transactions owe.
    pub(crate) fn take_room(&mut self, bytes: u64) -> Result<(), AllocError>
        requires running { self.old.failed ≡ None }
        requires few { bytes ≤ most_bytes }
        ensures same { self.new ≡ record self.old { log = record self.old.log { room = self.new.log.room } } }
        ensures room { OnOk result (bytes_owed (end_of self.old.journal.history) + bytes ≤ self.new.log.room) }
    {
        self.log.reserve(self.journal.bytes_owed() + bytes)
    }

    /// Appends the image of the page to the tail, in room that was taken for it, and marks the page. It takes no memory.
    pub(crate) fn log_image(&mut self, frame: &Frame<SLOTS>, page: u16)
        requires running { self.old.failed ≡ None }
        requires page { 8 * page < self.old.journal.history.ids }
        requires agree { HoldsPage (cells_of self.old.journal) page frame.now.page }
        requires room { bytes_owed (end_of self.old.journal.history) + image_bytes SLOTS ≤ self.old.log.room }
        requires bounded { bytes_counted self.old + image_bytes SLOTS ≤ most_bytes }
        ensures logged { LogsImage self.old self.new page frame.now.page }
        ensures long { bytes_counted self.new ≡ bytes_counted self.old + image_bytes SLOTS }
    {
        append_image(
            &mut self.log,
            &mut self.spelling,
            &mut self.marks,
            page,
            frame,
        );
        self.peak = self.peak.max(self.log.used() + self.journal.bytes_owed());
    }

    /// Makes the tail last, and with it the records of all notes. It takes no memory.
    ///
    /// [`DiskFailed`] comes only where the disk's count of faults rose in this call. The store is then stopped.
    pub(crate) fn force_all(&mut self) -> Result<(), DiskFailed>
        requires running { self.old.failed ≡ None }
        requires bounded { bytes_counted self.old + 5 ≤ most_bytes }
        ensures done { OnOk result (ForcesAll self.old self.new) }
        ensures bytes { OnOk result (D.content self.new.disk self.old.log.area ≡ option_map (forced_area self.old.log.durable self.old.log.tail) (D.content self.old.disk self.old.log.area)) }
        ensures area { IsLogArea self.old.log.area }
        ensures others { KeepsOthers D.content D.may_leave self.old.disk self.new.disk self.old.log.area }
        ensures fault { OnErr result (FailsUpkeep D.faults self.old self.new) }
        ensures later { D.faults self.old.disk ≤ D.faults self.new.disk }
        ensures count { OnOk result (D.faults self.new.disk ≡ D.faults self.old.disk) }
        ensures moments { LeavesOnlyImages D.moment D.left_since self.old.disk self.new.disk (MayHaveAll self.old) }
    {
        if self.log.force(self.disk.as_mut()).is_err() {
            self.failed = Some(FailedCall {
                commit: None,
                faults: self.disk.faults(),
            });
            return Err(DiskFailed);
        }
        self.durable = self.journal.history().len();
        self.peak = self.peak.max(self.log.used() + self.journal.bytes_owed());
        Ok(())
    }

    /// Makes what was written in place last.
    ///
    /// [`DiskFailed`] comes only where the disk's count of faults rose in this call. The store is then stopped.
    pub(crate) fn sync_pages(&mut self) -> Result<(), DiskFailed>
        requires running { self.old.failed ≡ None }
        ensures done { OnOk result (OnlyDisk self.old self.new) }
        ensures settled { OnOk result (IsSettled D.content D.may_leave self.new.disk Pages) }
        ensures keeps { KeepsAll D.content D.may_leave self.old.disk self.new.disk }
        ensures fault { OnErr result (FailsUpkeep D.faults self.old self.new) }
        ensures later { D.faults self.old.disk ≤ D.faults self.new.disk }
        ensures count { OnOk result (D.faults self.new.disk ≡ D.faults self.old.disk) }
        ensures moments { LeavesOnlyImages D.moment D.left_since self.old.disk self.new.disk (MayHaveAll self.old) }
    {
        if self.disk.as_mut().sync(Area::Pages).is_err() {
            self.failed = Some(FailedCall {
                commit: None,
                faults: self.disk.faults(),
            });
            return Err(DiskFailed);
        }
        Ok(())
    }

    /// Enters that upkeep was done, in the room that was reserved. All notes before it are there for good, and so is this one,
    /// which has no record.
    pub(crate) fn hide(&mut self)
        requires running { self.old.failed ≡ None }
        requires reserved { self.old.journal.reserved ≡ true }
        requires all { self.old.durable ≡ length self.old.journal.notes }
        requires empty { self.old.log.tail ≡ [] }
        ensures hidden { self.new ≡ record self.old { journal = with_upkeep SLOTS self.old.journal Entry.Hidden; durable = length self.new.journal.notes } }
    {
        self.journal.enter_hidden();
        self.durable = self.journal.history().len();
    }
}
