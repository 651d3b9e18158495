//! The walk over the batches of a log, record by record.
ghost use Rattle.std.specs.Prelude.{◌≡◌, ◌↔◌, ◌⊎◌, ◌+◌, ◌-◌, ◌<◌, ◌≤◌, ◌^◌, ℕ, List, length, slice_index, slice_set, true, false, IsTrue, MatchBool, IfOk, IfErr, IfSome, OnOk, IsErrOf};
ghost use Rattle.cell_page.specs.Format.{IsSlotCount};
ghost use Rattle.gate_log.specs.declared.stage.Stage.TheVariants.{Reading, Standing};
ghost use Rattle.log_record.specs.declared.cell_record.CellRecord.{CellRecord};
ghost use Rattle.log_record.specs.declared.record.Record.TheVariants.{OfCells};
ghost use Rattle.log_record.specs.Changes.{change_record};
ghost use Rattle.log_record.specs.Spelling.{BeginsWith};
ghost use Rattle.log_replay.specs.Replays.{Replaying};
ghost use Rattle.log_replay.specs.declared.refusals.TakeRefusal.TheVariants.{Unfit};
ghost use Rattle.store_opening.specs.declared.refusal.ReadRefusal.TheVariants.{Damaged, Memory};
ghost use Rattle.store_opening.specs.Refusals.{IsCaused, IsOfWalk};
ghost use Rattle.store_opening.specs.Looks.{IsLookedAt};
ghost use Rattle.store_opening.specs.Walks.{TakesFirst, TakesNone, TakesBody, StopsInBody};
ghost use Rattle.store_opening.specs.Walked.{HasWalked, EndsWalk, StopsWalk};

use crate::refusal::{ReadRefusal, told};
use disk_model::Disk;
use gate_log::GateLog;
use log_record::{CellRecord, PayloadChange, Record};
use log_replay::{Replay, TakeRefusal};
use page_marks::PageMarks;

/// A replay that a walk hands each record of a log, and the marks of pages that follow the records.
#[derive(Drop)]
pub(crate) struct Walk<const SLOTS: usize> {
    pub(crate) replay: Replay<SLOTS>,
    /// For each page, how many images the replay still awaits.
    pub(crate) awaited: Vec<u32>,
    /// For each page, what the records so far tell of it.
    pub(crate) marks: PageMarks,
}

/// Whether an image of the page is awaited.
fn is_awaited(awaited: &[u32], page: u16) -> bool
    ensures { (result ≡ true) ↔ ((page < length awaited.now) × (1 ≤ slice_index awaited.now page)) }
{
    (page as usize) < awaited.len() && awaited[page as usize] > 0
}

/// Counts the image of a page that the replay took.
fn count_image(awaited: &mut [u32], page: u16)
    requires { page < length awaited.old }
    ensures { awaited.new ≡ slice_set awaited.old page (slice_index awaited.old page - 1) }
{
    let left = awaited[page as usize];
    awaited[page as usize] = left.saturating_sub(1);
}

/// Takes the record of single cells that the bytes begin with, which has so many of them.
#[inline(always)]
fn take_of_cells<const SLOTS: usize>(
    walk: &mut Walk<SLOTS>,
    rec: &CellRecord,
    bytes: &[u8],
    len: usize,
) -> Result<usize, TakeRefusal>
    requires count { IsSlotCount SLOTS }
    requires same { walk.old.awaited.items ≡ walk.old.replay.skips }
    requires as_many { length walk.old.marks ≡ length walk.old.replay.skips }
    requires begins { BeginsWith {slots = SLOTS} bytes.now (OfCells rec.now) len }
    ensures took { IfOk result (λ taken. TakesFirst SLOTS bytes.now taken walk.old.replay walk.new.replay walk.old.marks walk.new.marks) }
    ensures within { IfOk result (λ taken. (1 ≤ taken) × (taken ≤ length bytes.now)) }
    ensures unfit { IsErrOf result Unfit → TakesNone SLOTS bytes.now walk.old.replay }
    ensures same { walk.new.awaited.items ≡ walk.new.replay.skips }
    ensures as_many { length walk.new.marks ≡ length walk.new.replay.skips }
{
    match walk.replay.take_of_cells(rec) {
        Ok(()) => {
            walk.marks.take(rec);
            Ok(len)
        }
        Err(refusal) => Err(refusal),
    }
}

/// Takes the image that the bytes begin with, where no record of single cells begins them, and answers how many bytes it has.
/// One that isn't awaited doesn't fit.
fn take_image<const SLOTS: usize>(
    walk: &mut Walk<SLOTS>,
    bytes: &[u8],
) -> Result<usize, TakeRefusal>
    requires count { IsSlotCount SLOTS }
    requires same { walk.old.awaited.items ≡ walk.old.replay.skips }
    requires as_many { length walk.old.marks ≡ length walk.old.replay.skips }
    requires none { (r : CellRecord) (len : ℕ) → BeginsWith {slots = SLOTS} bytes.now (OfCells r) len → ⊥ }
    ensures took { IfOk result (λ len. TakesFirst SLOTS bytes.now len walk.old.replay walk.new.replay walk.old.marks walk.new.marks) }
    ensures within { IfOk result (λ len. (1 ≤ len) × (len ≤ length bytes.now)) }
    ensures unfit { IsErrOf result Unfit → TakesNone SLOTS bytes.now walk.old.replay }
    ensures same { walk.new.awaited.items ≡ walk.new.replay.skips }
    ensures as_many { length walk.new.marks ≡ length walk.new.replay.skips }
{
    let Ok((rec, len)) = Record::<SLOTS>::read(bytes) else {
        return Err(TakeRefusal::Unfit);
    };
    match rec {
        Record::Image { page, .. } => {
            if !is_awaited(&walk.awaited, page) {
                return Err(TakeRefusal::Unfit);
            }
            match walk.replay.take(&rec) {
                Ok(()) => {
                    count_image(&mut walk.awaited, page);
                    walk.marks.image(page);
                    Ok(len)
                }
                Err(refusal) => Err(refusal),
            }
        }
        Record::OfCells(_) => Err(TakeRefusal::Unfit),
        Record::Turn { .. } => Err(TakeRefusal::Unfit),
    }
}

/// Takes the change of a payload that the bytes begin with, which has so many of them.
#[inline(always)]
fn take_change<const SLOTS: usize>(
    walk: &mut Walk<SLOTS>,
    change: PayloadChange,
    bytes: &[u8],
    len: usize,
) -> Result<usize, TakeRefusal>
    requires count { IsSlotCount SLOTS }
    requires same { walk.old.awaited.items ≡ walk.old.replay.skips }
    requires as_many { length walk.old.marks ≡ length walk.old.replay.skips }
    requires begins { BeginsWith {slots = SLOTS} bytes.now (OfCells (change_record change)) len }
    ensures took { IfOk result (λ taken. TakesFirst SLOTS bytes.now taken walk.old.replay walk.new.replay walk.old.marks walk.new.marks) }
    ensures within { IfOk result (λ taken. (1 ≤ taken) × (taken ≤ length bytes.now)) }
    ensures unfit { IsErrOf result Unfit → TakesNone SLOTS bytes.now walk.old.replay }
    ensures same { walk.new.awaited.items ≡ walk.new.replay.skips }
    ensures as_many { length walk.new.marks ≡ length walk.new.replay.skips }
{
    match walk.replay.take_change(change) {
        Ok(()) => {
            walk.marks.take(&change.record());
            Ok(len)
        }
        Err(refusal) => Err(refusal),
    }
}

/// Takes the record of any kind that the bytes begin with, and answers how many bytes it has.
fn take_of_any_kind<const SLOTS: usize>(
    walk: &mut Walk<SLOTS>,
    bytes: &[u8],
) -> Result<usize, TakeRefusal>
    requires count { IsSlotCount SLOTS }
    requires same { walk.old.awaited.items ≡ walk.old.replay.skips }
    requires as_many { length walk.old.marks ≡ length walk.old.replay.skips }
    ensures took { IfOk result (λ len. TakesFirst SLOTS bytes.now len walk.old.replay walk.new.replay walk.old.marks walk.new.marks) }
    ensures within { IfOk result (λ len. (1 ≤ len) × (len ≤ length bytes.now)) }
    ensures unfit { IsErrOf result Unfit → TakesNone SLOTS bytes.now walk.old.replay }
    ensures same { walk.new.awaited.items ≡ walk.new.replay.skips }
    ensures as_many { length walk.new.marks ≡ length walk.new.replay.skips }
{
    match &CellRecord::read::<SLOTS>(bytes) {
        Ok((rec, len)) => take_of_cells(walk, rec, bytes, *len),
        Err(_) => take_image(walk, bytes),
    }
}

/// Takes the record that the bytes begin with, and answers how many bytes it has.
#[inline(always)]
fn take_record<const SLOTS: usize>(
    walk: &mut Walk<SLOTS>,
    bytes: &[u8],
) -> Result<usize, TakeRefusal>
    requires count { IsSlotCount SLOTS }
    requires same { walk.old.awaited.items ≡ walk.old.replay.skips }
    requires as_many { length walk.old.marks ≡ length walk.old.replay.skips }
    ensures took { IfOk result (λ len. TakesFirst SLOTS bytes.now len walk.old.replay walk.new.replay walk.old.marks walk.new.marks) }
    ensures within { IfOk result (λ len. (1 ≤ len) × (len ≤ length bytes.now)) }
    ensures unfit { IsErrOf result Unfit → TakesNone SLOTS bytes.now walk.old.replay }
    ensures same { walk.new.awaited.items ≡ walk.new.replay.skips }
    ensures as_many { length walk.new.marks ≡ length walk.new.replay.skips }
{
    match PayloadChange::read(bytes) {
        Some((change, len)) => take_change(walk, change, bytes, len),
        None => take_of_any_kind(walk, bytes),
    }
}

/// Takes the records of a batch whose body ends at this offset of the log area.
fn take_records<const SLOTS: usize>(
    walk: &mut Walk<SLOTS>,
    body: &[u8],
    end: u64,
) -> Result<(), ReadRefusal>
    requires count { IsSlotCount SLOTS }
    requires same { walk.old.awaited.items ≡ walk.old.replay.skips }
    requires as_many { length walk.old.marks ≡ length walk.old.replay.skips }
    requires within { length body.now ≤ end }
    ensures took { OnOk result (TakesBody SLOTS body.now walk.old.replay walk.new.replay walk.old.marks walk.new.marks) }
    ensures damaged { (at : ℕ) → IsErrOf result (Damaged at)
        → (offset : ℕ) × (at + length body.now ≡ end + offset) × StopsInBody SLOTS body.now offset walk.old.replay }
    ensures refusals { IfErr result (λ e. (e ≡ Memory) ⊎ ((at : ℕ) × (e ≡ Damaged at))) }
    ensures same { walk.new.awaited.items ≡ walk.new.replay.skips }
    ensures as_many { length walk.new.marks ≡ length walk.new.replay.skips }
{
    let start = end - body.len() as u64;
    let mut at = 0;
    'records: while at < body.len() {
        match take_record(walk, &body[at..]) {
            Ok(len) => at += len,
            Err(TakeRefusal::Unfit) => {
                return Err(ReadRefusal::Damaged {
                    at: start + at as u64,
                });
            }
            Err(TakeRefusal::Memory) => return Err(ReadRefusal::Memory),
        }
    }
    Ok(())
}

/// Reads the next batch and takes its records. Whether there was one. Its body takes the memory of the spare one, and is
/// the spare one then.
fn walk_batch<D: Disk, const SLOTS: usize>(
    log: &mut GateLog,
    disk: &mut D,
    walk: &mut Walk<SLOTS>,
    spare: &mut Vec<u8>,
) -> Result<bool, ReadRefusal>
    requires count { IsSlotCount SLOTS }
    requires reading { log.old.stage ≡ Reading }
    requires same { walk.old.awaited.items ≡ walk.old.replay.skips }
    requires as_many { length walk.old.marks ≡ length walk.old.replay.skips }
    ensures step { (v : Replaying) (read : List (List ℕ)) → HasWalked D.content D.may_leave SLOTS read v walk.old.replay walk.old.marks log.old disk.old
        → IfOk result (λ more. MatchBool more (HasWalked D.content D.may_leave SLOTS read v walk.new.replay walk.new.marks log.new disk.new)
        (EndsWalk D.content D.may_leave SLOTS read v walk.new.replay walk.new.marks log.new disk.new)) }
    ensures damaged { (v : Replaying) (read : List (List ℕ)) → HasWalked D.content D.may_leave SLOTS read v walk.old.replay walk.old.marks log.old disk.old
        → (at : ℕ) → IsErrOf result (Damaged at) → IfSome (D.content disk.old log.old.area) (StopsWalk SLOTS read v at) }
    ensures refusals { IfErr result IsOfWalk }
    ensures goes_on { IfOk result (λ more. IsTrue more → (log.new.stage ≡ Reading) × (log.old.durable < log.new.durable) × (log.new.durable < 2 ^ 64)) }
    ensures ends { IfOk result (λ more. (more ≡ false) → log.new ≡ record log.old { stage = Standing }) }
    ensures area { log.new.area ≡ log.old.area }
    ensures tail { log.new.tail ≡ log.old.tail }
    ensures same { walk.new.awaited.items ≡ walk.new.replay.skips }
    ensures as_many { length walk.new.marks ≡ length walk.new.replay.skips }
    ensures looks { IsLookedAt D.content D.may_leave D.moment D.left_since disk.old disk.new }
    ensures cause { IsCaused (D.faults disk.old) (D.faults disk.new) result }
{
    match log.next_batch(disk, spare) {
        Ok(Some(body)) => {
            let end = log.durable();
            match take_records(walk, &body, end) {
                Ok(()) => {
                    *spare = body;
                    Ok(true)
                }
                Err(refusal) => Err(refusal),
            }
        }
        Ok(None) => Ok(false),
        Err(refusal) => Err(told(refusal)),
    }
}

/// Reads the batches that are left of a log, up to its end, and takes their records. The bodies take the memory of the spare
/// one.
///
/// [`ReadRefusal::Damaged`] tells where the first record stands that doesn't fit, or the first commit byte after which no
/// batch stands, whichever comes first. [`ReadRefusal::Disk`] comes only where the disk's count of faults rose in this
/// call.
pub(crate) fn walk_log<D: Disk, const SLOTS: usize>(
    log: &mut GateLog,
    disk: &mut D,
    walk: &mut Walk<SLOTS>,
    spare: &mut Vec<u8>,
) -> Result<(), ReadRefusal>
    requires count { IsSlotCount SLOTS }
    requires reading { log.old.stage ≡ Reading }
    requires same { walk.old.awaited.items ≡ walk.old.replay.skips }
    requires as_many { length walk.old.marks ≡ length walk.old.replay.skips }
    ensures done { (v : Replaying) (read : List (List ℕ)) → HasWalked D.content D.may_leave SLOTS read v walk.old.replay walk.old.marks log.old disk.old
        → OnOk result (EndsWalk D.content D.may_leave SLOTS read v walk.new.replay walk.new.marks log.new disk.new) }
    ensures damaged { (v : Replaying) (read : List (List ℕ)) → HasWalked D.content D.may_leave SLOTS read v walk.old.replay walk.old.marks log.old disk.old
        → (at : ℕ) → IsErrOf result (Damaged at) → IfSome (D.content disk.old log.old.area) (StopsWalk SLOTS read v at) }
    ensures refusals { IfErr result IsOfWalk }
    ensures stands { OnOk result (log.new.stage ≡ Standing) }
    ensures area { log.new.area ≡ log.old.area }
    ensures tail { log.new.tail ≡ log.old.tail }
    ensures same { walk.new.awaited.items ≡ walk.new.replay.skips }
    ensures as_many { length walk.new.marks ≡ length walk.new.replay.skips }
    ensures looks { IsLookedAt D.content D.may_leave D.moment D.left_since disk.old disk.new }
    ensures cause { IsCaused (D.faults disk.old) (D.faults disk.new) result }
{
    'batches: loop {
        if !walk_batch(log, disk, walk, spare)? {
            return Ok(());
        }
    }
}
