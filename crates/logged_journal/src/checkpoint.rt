//! The log is turned: a checkpoint, after which it begins anew.
ghost use Rattle.std.specs.Prelude.{◌≡◌, ◌≢◌, ◌⊎◌, ◌↔◌, ℕ, ◌+◌, ◌*◌, ◌<◌, ◌≤◌, [], ◌∷◌, true, false, length, option_map, vec_capacity, IfOk, IfSome, IsSome, Some, None, OnOk, OnErr};
ghost use Rattle.disk_model.specs.declared.area.Area.TheVariants.{Super, Pages};
ghost use Rattle.disk_model.specs.Changes.{written, Torn};
ghost use Rattle.disk_model.specs.Told.{Keeps, KeepsOthers, Follows, EachImage, Leaves};
ghost use Rattle.disk_model.specs.Time.{LeavesOnlyImages};
ghost use Rattle.plain_model.specs.History.{end_of, least_active};
ghost use Rattle.cell_page.specs.Format.{IsSlotCount, AreTyped, page_size, page_bytes};
ghost use Rattle.cell_page.specs.Stored.{HoldsPage};
ghost use Rattle.gate_log.specs.Batches.{most_bytes};
ghost use Rattle.gate_log.specs.State.{naming_byte, other_log};
ghost use Rattle.log_record.specs.Spelling.{known_version};
ghost use Rattle.page_area.specs.InPlace.{HasCopy};
ghost use Rattle.opened_images.specs.Marks.{StandsInPlace};
ghost use Rattle.core_store.specs.Frames.{AllAgree};
ghost use Rattle.core_store.specs.JournalView.{cells_of};
ghost use Rattle.core_store.specs.Limited.{AreLimits, is_past_limit};
ghost use Rattle.core_store.specs.Owed.{bytes_owed};
ghost use Rattle.logged_journal.specs.View.{OnlyTakesRoom, bytes_counted, history_of, image_bytes, image_need};
ghost use Rattle.logged_journal.specs.Records.{MayHaveAll};
ghost use Rattle.logged_journal.specs.Opens.{OpensAfter};
ghost use Rattle.logged_journal.specs.Upkeep.{IsPastFormat, IsPastLogToTurn, IsTurned, LogsImage, OnlyDisk, OnlyNames, Turns, TellsBusy, FailsUpkeep};
ghost use Rattle.logged_journal.specs.Checkpoints.{ForcesImages, page_in, has_changed, wants_image, changed_below, wanted_below, AreThere, LogsImages, AreCurrent, BeginsAnew};

use crate::cleaning::BATCH_BYTES;
use crate::failed::FailedCall;
use crate::logged::LoggedJournal;
use crate::needs::TurnNeeds;
use crate::placing::place_changed;
use crate::typed::know_page;
use crate::upkeep::Upkeep;
use cell_page::Page;
use core_store::Frame;
use disk_model::{Disk, DiskFailed};
use log_record::Record;
use std::alloc::AllocError;

/// A log has no more bytes than this.
const MOST_BYTES: u64 = 1 << 30;

/// The version of the log's format.
fn known_version<const SLOTS: usize>() -> u8
    requires count { IsSlotCount SLOTS }
    ensures { result ≡ known_version SLOTS }
{
    if SLOTS == 6 { 1 } else { 2 }
}

impl<const SLOTS: usize, D: Disk> LoggedJournal<SLOTS, D> {
    /// Appends the image of the page and marks it, where a record of the log concerns the page and no image of it is current.
    fn log_changed(&mut self, frame: &Frame<SLOTS>, page: u16)
        requires running { self.old.failed ≡ None }
        requires page { 8 * page < self.old.journal.history.ids }
        requires agree { HoldsPage (cells_of self.old.journal) page frame.now.page }
        requires room { wants_image self.old.marks page ≡ true → bytes_owed (end_of self.old.journal.history) + image_bytes SLOTS ≤ self.old.log.room }
        requires bounded { wants_image self.old.marks page ≡ true → bytes_counted self.old + image_bytes SLOTS ≤ most_bytes }
        ensures wanted { wants_image self.old.marks page ≡ true → LogsImage self.old self.new page frame.now.page }
        ensures other { wants_image self.old.marks page ≡ false → self.new ≡ self.old }
        ensures typed { AreTyped frame.now.page }
        ensures size { IsSlotCount SLOTS }
    {
        let mark = self.marks.get(page);
        know_page(page, &frame.page);
        if mark.changed && !mark.current {
            self.log_image(frame, page);
        }
    }

    /// There are few pages, and each has a mark.
    fn know_few(&self, frames: &[Frame<SLOTS>])
        requires pages { 8 * length frames.now ≡ self.now.journal.history.ids }
        ensures many { length frames.now ≡ length self.now.marks }
        ensures few { length frames.now ≤ 1024 }
        ensures size { IsSlotCount SLOTS }
    {
        let _ = self.marks.len();
    }

    /// Appends the image of each page that a record of the log concerns and of which none is current, in ascending order of the
    /// pages.
    fn log_images(&mut self, frames: &[Frame<SLOTS>])
        requires running { self.old.failed ≡ None }
        requires pages { 8 * length frames.now ≡ self.old.journal.history.ids }
        requires agree { AllAgree (cells_of self.old.journal) frames.now }
        requires room { bytes_owed (end_of self.old.journal.history) + image_bytes SLOTS * length (wanted_below self.old.marks (length self.old.marks)) ≤ self.old.log.room }
        requires bounded { bytes_counted self.old + image_bytes SLOTS * length (wanted_below self.old.marks (length self.old.marks)) ≤ most_bytes }
        ensures logged { LogsImages frames.now (length self.old.marks) self.old self.new }
        ensures counted { bytes_counted self.new ≡ bytes_counted self.old + image_bytes SLOTS * length (wanted_below self.old.marks (length self.old.marks)) }
        ensures typed { (page : ℕ) → page < length frames.now → AreTyped (page_in frames.now page) }
    {
        self.know_few(frames);
        let _ = self.peak();
        for (page, frame) in frames.iter().enumerate() {
            self.log_changed(frame, page as u16);
        }
    }

    /// Each changed page, whose image is current, is its last image in the log, in each image of the disk.
    fn know_copies(&self, frames: &[Frame<SLOTS>])
        requires running { self.now.failed ≡ None }
        requires pages { 8 * length frames.now ≡ self.now.journal.history.ids }
        requires agree { AllAgree (cells_of self.now.journal) frames.now }
        requires current { AreCurrent self.now.marks }
        requires empty { self.now.log.tail ≡ [] }
        ensures copied { (page : ℕ) → page < length self.now.marks → has_changed self.now.marks page ≡ true → EachImage D.may_leave self.now.disk (HasCopy SLOTS page (page_bytes (page_in frames.now page))) }
    {
        self.know_few(frames);
        for (page, frame) in frames.iter().enumerate() {
            if self.marks.get(page as u16).changed {
                self.know_image(frame, page as u16);
            }
        }
    }

    /// Writes each changed page in place, neighbouring ones by one disk call. What it wrote lasts once the pages were synced.
    ///
    /// [`DiskFailed`] comes only where the disk's count of faults rose in this call. The store is then stopped.
    fn write_changed(
        &mut self,
        frames: &[Frame<SLOTS>],
        run: &mut Vec<u8>,
    ) -> Result<(), DiskFailed>
        requires running { self.old.failed ≡ None }
        requires pages { 8 * length frames.now ≡ self.old.journal.history.ids }
        requires agree { AllAgree (cells_of self.old.journal) frames.now }
        requires current { AreCurrent self.old.marks }
        requires empty { self.old.log.tail ≡ [] }
        requires room { page_size SLOTS * length (changed_below self.old.marks (length self.old.marks)) ≤ vec_capacity run.old }
        ensures done { OnOk result (OnlyDisk self.old self.new) }
        ensures there { OnOk result (IfSome (D.content self.new.disk Pages) (AreThere frames.now self.old.marks (length self.old.marks))) }
        ensures others { KeepsOthers D.content D.may_leave self.old.disk self.new.disk Pages }
        ensures fault { OnErr result (FailsUpkeep D.faults self.old self.new) }
        ensures later { D.faults self.old.disk ≤ D.faults self.new.disk }
        ensures count { OnOk result (D.faults self.new.disk ≡ D.faults self.old.disk) }
        ensures moments { LeavesOnlyImages D.moment D.left_since self.old.disk self.new.disk (MayHaveAll self.old) }
    {
        self.know_few(frames);
        self.know_copies(frames);
        if place_changed::<D, SLOTS>(self.disk.as_mut(), &self.marks, frames, run).is_err() {
            self.failed = Some(FailedCall {
                commit: None,
                faults: self.disk.faults(),
            });
            return Err(DiskFailed);
        }
        Ok(())
    }

    /// Makes each changed page last in place. Then all pages stand there.
    ///
    /// [`DiskFailed`] comes only where the disk's count of faults rose in this call. The store is then stopped.
    fn place_all(&mut self, frames: &[Frame<SLOTS>], run: &mut Vec<u8>) -> Result<(), DiskFailed>
        requires running { self.old.failed ≡ None }
        requires pages { 8 * length frames.now ≡ self.old.journal.history.ids }
        requires agree { AllAgree (cells_of self.old.journal) frames.now }
        requires typed { (page : ℕ) → page < length frames.now → AreTyped (page_in frames.now page) }
        requires current { AreCurrent self.old.marks }
        requires empty { self.old.log.tail ≡ [] }
        requires room { page_size SLOTS * length (changed_below self.old.marks (length self.old.marks)) ≤ vec_capacity run.old }
        ensures done { OnOk result (OnlyDisk self.old self.new) }
        ensures stand { OnOk result ((page : ℕ) → page < length frames.now → Leaves D.may_leave self.new.disk Pages (λ area. StandsInPlace SLOTS area (cells_of self.old.journal) page)) }
        ensures others { KeepsOthers D.content D.may_leave self.old.disk self.new.disk Pages }
        ensures fault { OnErr result (FailsUpkeep D.faults self.old self.new) }
        ensures later { D.faults self.old.disk ≤ D.faults self.new.disk }
        ensures count { OnOk result (D.faults self.new.disk ≡ D.faults self.old.disk) }
        ensures moments { LeavesOnlyImages D.moment D.left_since self.old.disk self.new.disk (MayHaveAll self.old) }
    {
        self.know_few(frames);
        if self.write_changed(frames, run).is_err() {
            return Err(DiskFailed);
        }
        if self.sync_pages().is_err() {
            return Err(DiskFailed);
        }
        self.know_unchanged();
        Ok(())
    }

    /// Begins the log anew in the other log area, where all pages stand in place and no transaction is active.
    ///
    /// [`DiskFailed`] comes only where the disk's count of faults rose in this call. The store is then stopped.
    fn begin_anew(&mut self, pages: u16) -> Result<(), DiskFailed>
        requires running { self.old.failed ≡ None }
        requires pages { 8 * pages ≡ self.old.journal.history.ids }
        requires idle { least_active (end_of self.old.journal.history).state ≡ None }
        requires all { self.old.durable ≡ length self.old.journal.notes }
        requires empty { self.old.log.tail ≡ [] }
        requires stand { (page : ℕ) → page < pages → Leaves D.may_leave self.old.disk Pages (λ area. StandsInPlace SLOTS area (cells_of self.old.journal) page) }
        ensures done { OnOk result (BeginsAnew SLOTS pages self.old self.new) }
        ensures turned { OnOk result (EachImage D.may_leave self.new.disk (IsTurned SLOTS (cells_of self.old.journal) (other_log self.old.log.area))) }
        ensures old { OnOk result (Keeps D.content D.may_leave self.old.disk self.new.disk self.old.log.area) }
        ensures others { Follows D.content D.may_leave (Torn 0 1) self.old.disk self.new.disk Super }
        ensures named { OnOk result (D.content self.new.disk Super ≡ option_map (written 0 (naming_byte (other_log self.old.log.area) ∷ [])) (D.content self.old.disk Super)) }
        ensures fault { OnErr result (FailsUpkeep D.faults self.old self.new) }
        ensures later { D.faults self.old.disk ≤ D.faults self.new.disk }
        ensures count { OnOk result (D.faults self.new.disk ≡ D.faults self.old.disk) }
        ensures moments { LeavesOnlyImages D.moment D.left_since self.old.disk self.new.disk (MayHaveAll self.old) }
    {
        let _ = self.journal.history();
        let _ = self.marks.len();
        self.spelling.clear();
        let first = Record::<SLOTS>::Turn {
            version: known_version::<SLOTS>(),
            pages,
        };
        let _ = first.write(&mut self.spelling);
        if self.log.turn(self.disk.as_mut(), &self.spelling).is_err() {
            self.failed = Some(FailedCall {
                commit: None,
                faults: self.disk.faults(),
            });
            return Err(DiskFailed);
        }
        self.marks.clear();
        self.peak = self.peak.max(self.log.used() + self.journal.bytes_owed());
        Ok(())
    }

    /// The images that joined the log meanwhile count for nothing, now that it began anew.
    fn lower_peak(&mut self, peak: u64)
        requires running { self.old.failed ≡ None }
        requires counted { bytes_counted self.old ≤ peak }
        requires full { self.old.log_full ≡ true → self.old.journal.limits.log < peak + image_need SLOTS }
        ensures lowered { self.new ≡ record self.old { peak = peak } }
    {
        self.peak = peak;
    }

    /// Turns the log. There is room for all that this needs, so it takes no memory.
    fn turn_in_room(&mut self, frames: &[Frame<SLOTS>], run: &mut Vec<u8>) -> Upkeep
        requires running { self.old.failed ≡ None }
        requires pages { 8 * length frames.now ≡ self.old.journal.history.ids }
        requires agree { AllAgree (cells_of self.old.journal) frames.now }
        requires reserved { self.old.journal.reserved ≡ true }
        requires idle { least_active (end_of self.old.journal.history).state ≡ None }
        requires room { bytes_owed (end_of self.old.journal.history) + image_bytes SLOTS * length (wanted_below self.old.marks (length self.old.marks)) ≤ self.old.log.room }
        requires bounded { bytes_counted self.old + image_bytes SLOTS * length (wanted_below self.old.marks (length self.old.marks)) + 5 ≤ most_bytes }
        requires run { page_size SLOTS * length (changed_below self.old.marks (length self.old.marks)) ≤ vec_capacity run.old }
        ensures answers { (result ≡ Upkeep.Done) ⊎ (result ≡ Upkeep.DiskFault) }
        ensures done { result ≡ Upkeep.Done → Turns SLOTS self.old self.new }
        ensures turned { result ≡ Upkeep.Done → EachImage D.may_leave self.new.disk (IsTurned SLOTS (cells_of self.old.journal) (other_log self.old.log.area)) }
        ensures old_log { result ≡ Upkeep.Done → ForcesImages D.content frames.now self.old self.new }
        ensures super_area { OnlyNames D.content D.may_leave self.old self.new result }
        ensures fault { result ≡ Upkeep.DiskFault → FailsUpkeep D.faults self.old self.new }
        ensures later { D.faults self.old.disk ≤ D.faults self.new.disk }
        ensures count { result ≢ Upkeep.DiskFault → D.faults self.new.disk ≡ D.faults self.old.disk }
        ensures moments { LeavesOnlyImages D.moment D.left_since self.old.disk self.new.disk (MayHaveAll self.old) }
    {
        self.know_few(frames);
        let _ = self.marks();
        let peak = self.peak();
        self.log_images(frames);
        if self.force_all().is_err() {
            return Upkeep::DiskFault;
        }
        if self.place_all(frames, run).is_err() {
            return Upkeep::DiskFault;
        }
        if self.begin_anew(frames.len() as u16).is_err() {
            return Upkeep::DiskFault;
        }
        self.hide();
        self.lower_peak(peak.max(self.log_used()));
        Upkeep::Done
    }

    /// How many pages a turn writes, and of how many it appends an image.
    fn needs(&self, frames: &[Frame<SLOTS>]) -> TurnNeeds
        requires pages { 8 * length frames.now ≡ self.now.journal.history.ids }
        ensures changed { result.changed ≡ length (changed_below self.now.marks (length self.now.marks)) }
        ensures images { result.images ≡ length (wanted_below self.now.marks (length self.now.marks)) }
        ensures few { (result.changed ≤ 1024) × (result.images ≤ 1024) }
        ensures size { IsSlotCount SLOTS }
    {
        self.know_few(frames);
        TurnNeeds::of(&self.marks, frames.len() as u16)
    }

    /// Whether a log with so many bytes more, in one batch, would be longer than a log may be.
    fn is_too_long(&self, images: u64) -> bool
        requires running { self.now.failed ≡ None }
        requires few { images ≤ 1051648 }
        ensures long { (result ≡ true) ↔ (most_bytes < bytes_counted self.now + images + 5) }
        ensures limits { AreLimits self.now.journal.limits }
    {
        let _ = self.journal.limits();
        self.log.used() + self.journal.bytes_owed() + images + BATCH_BYTES > MOST_BYTES
    }

    /// An empty run of pages, with room for so many.
    fn run_for(&self, pages: usize) -> Result<Vec<u8>, AllocError>
        requires few { pages ≤ 1024 }
        ensures room { IfOk result (λ run. page_size SLOTS * pages ≤ vec_capacity run) }
    {
        let mut run = Vec::new(*self.spelling.allocator());
        run.reserve(pages * Page::<SLOTS>::encoded_len())?;
        Ok(run)
    }

    /// Turns the log, where no transaction is active and room was reserved for an entry.
    fn turn_idle(&mut self, frames: &[Frame<SLOTS>]) -> Upkeep
        requires running { self.old.failed ≡ None }
        requires pages { 8 * length frames.now ≡ self.old.journal.history.ids }
        requires agree { AllAgree (cells_of self.old.journal) frames.now }
        requires reserved { self.old.journal.reserved ≡ true }
        requires idle { least_active (end_of self.old.journal.history).state ≡ None }
        ensures answers { (result ≡ Upkeep.Done) ⊎ (result ≡ Upkeep.DiskFault) ⊎ (result ≡ Upkeep.LogFull) ⊎ (result ≡ Upkeep.Memory) }
        ensures log_full { result ≡ Upkeep.LogFull → self.old.journal.limits.log < bytes_counted self.old }
        ensures too_long { (result ≡ Upkeep.LogFull) ↔ IsPastFormat SLOTS self.old }
        ensures log_marked { result ≡ Upkeep.LogFull → self.new ≡ record self.old { log_full = true } }
        ensures memory { result ≡ Upkeep.Memory → OnlyTakesRoom self.old self.new }
        ensures done { result ≡ Upkeep.Done → Turns SLOTS self.old self.new }
        ensures turned { result ≡ Upkeep.Done → EachImage D.may_leave self.new.disk (IsTurned SLOTS (cells_of self.old.journal) (other_log self.old.log.area)) }
        ensures old_log { result ≡ Upkeep.Done → ForcesImages D.content frames.now self.old self.new }
        ensures super_area { OnlyNames D.content D.may_leave self.old self.new result }
        ensures fault { result ≡ Upkeep.DiskFault → FailsUpkeep D.faults self.old self.new }
        ensures later { D.faults self.old.disk ≤ D.faults self.new.disk }
        ensures count { result ≢ Upkeep.DiskFault → D.faults self.new.disk ≡ D.faults self.old.disk }
        ensures moments { LeavesOnlyImages D.moment D.left_since self.old.disk self.new.disk (MayHaveAll self.old) }
    {
        self.know_images();
        let needs = self.needs(frames);
        let images = needs.images as u64 * self.bytes_of_image();
        if self.is_too_long(images) {
            self.mark_full();
            return Upkeep::LogFull;
        }
        if self.take_room(images).is_err() {
            return Upkeep::Memory;
        }
        match self.run_for(needs.changed) {
            Ok(mut run) => self.turn_in_room(frames, &mut run),
            Err(AllocError) => Upkeep::Memory,
        }
    }

    /// Turns the log: images of all pages that changed since it began join it where none is current, it is forced, and each of
    /// these pages is made to last in place. Then it begins anew in the other log area, with its first batch alone. These are the
    /// frames, one for each page from 0 on. It changes no object, and enters an entry that says so.
    ///
    /// [`Upkeep::Stopped`] comes exactly where the disk failed a call before, [`Upkeep::TraceFull`] exactly where the history has
    /// no room for one entry. [`Upkeep::Busy`] comes where a transaction is active, unless memory is out; it names the least such
    /// client, and enters the history. [`Upkeep::LogFull`] comes just where the log with these images would be longer than a log may
    /// be, unless memory is out; the log's limit doesn't matter. These but `Busy`, and [`Upkeep::Memory`], do nothing. [`Upkeep::DiskFault`] comes only where the
    /// disk's count of faults rose in this call; the store is then stopped.
    pub fn turn(&mut self, frames: &[Frame<SLOTS>]) -> Upkeep
        requires pages { 8 * length frames.now ≡ self.old.journal.history.ids }
        requires agree { AllAgree (cells_of self.old.journal) frames.now }
        ensures stopped { IfSome self.old.failed (λ f. (result ≡ Upkeep.Stopped f.faults) × (self.new ≡ self.old)) }
        ensures only_stopped { (faults : ℕ) → result ≡ Upkeep.Stopped faults → IsSome self.old.failed }
        ensures full { (result ≡ Upkeep.TraceFull) ↔ (self.old.failed ≡ None) × (is_past_limit self.old.journal 1 ≡ true) }
        ensures marked { result ≡ Upkeep.TraceFull → self.new ≡ record self.old { journal = record self.old.journal { marks = record self.old.journal.marks { trace = true } } } }

        // The least active client makes it busy, and nobody else.
        ensures busy { (pass : ℕ) → self.old.failed ≡ None → is_past_limit self.old.journal 1 ≡ false → least_active (end_of self.old.journal.history).state ≡ Some pass
            → (result ≡ Upkeep.Busy pass) ⊎ (result ≡ Upkeep.Memory) }
        ensures only_busy { (pass : ℕ) → result ≡ Upkeep.Busy pass → least_active (end_of self.old.journal.history).state ≡ Some pass }
        ensures told { (pass : ℕ) → result ≡ Upkeep.Busy pass → TellsBusy SLOTS self.old self.new pass }
        ensures log_full { result ≡ Upkeep.LogFull → self.old.journal.limits.log < bytes_counted self.old }
        ensures too_long { result ≡ Upkeep.LogFull → IsPastLogToTurn SLOTS self.old }
        ensures only_too_long { IsPastLogToTurn SLOTS self.old → (result ≡ Upkeep.LogFull) ⊎ (result ≡ Upkeep.Memory) }
        ensures log_marked { result ≡ Upkeep.LogFull → OnlyTakesRoom (record self.old { log_full = true }) self.new }
        ensures memory { result ≡ Upkeep.Memory → OnlyTakesRoom self.old self.new }
        ensures done { result ≡ Upkeep.Done → Turns SLOTS self.old self.new }

        // After it each image of the disk has every page in place, and names the other log area, which has the first batch alone.
        ensures turned { result ≡ Upkeep.Done → EachImage D.may_leave self.new.disk (IsTurned SLOTS (cells_of self.old.journal) (other_log self.old.log.area)) }

        // The images that joined the log before that are those of the changed pages without a current one, ascending, each once.
        ensures old_log { result ≡ Upkeep.Done → ForcesImages D.content frames.now self.old self.new }

        // Of the super area the first byte alone changes, which names the other log area then.
        ensures super_area { OnlyNames D.content D.may_leave self.old self.new result }
        ensures fault { result ≡ Upkeep.DiskFault → FailsUpkeep D.faults self.old self.new }
        ensures later { D.faults self.old.disk ≤ D.faults self.new.disk }
        ensures count { result ≢ Upkeep.DiskFault → D.faults self.new.disk ≡ D.faults self.old.disk }

        // At each moment of the call a power loss leaves a log of what was there for good before, or of all that was done. So
        // at each of them the store opens, to a graph that a crash before the call may leave.
        ensures moments { LeavesOnlyImages D.moment D.left_since self.old.disk self.new.disk (MayHaveAll self.old) }
        ensures opens { LeavesOnlyImages D.moment D.left_since self.old.disk self.new.disk (OpensAfter SLOTS (history_of self.old)) }
    {
        self.know_images();
        match self.refuse_turn() {
            Some(upkeep) => upkeep,
            None => self.turn_idle(frames),
        }
    }
}
