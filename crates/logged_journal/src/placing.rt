//! Changed pages are written in place.
ghost use Rattle.std.specs.Prelude.{◌≡◌, ◌+◌, ◌*◌, ◌<◌, ◌≤◌, ◌++◌, [], ℕ, List, None, true, length, vec_len, vec_capacity, slice_index_or, IfErr, IfSome, OnOk};
ghost use Rattle.disk_model.specs.Told.{KeepsOthers, Follows, Steps, Leaves, EachImage};
ghost use Rattle.disk_model.specs.Time.{LeavesOnlyImages};
ghost use Rattle.disk_model.specs.declared.area.Area.TheVariants.{Pages};
ghost use Rattle.cell_page.specs.Format.{IsSlotCount, IsPage, page_size, page_bytes};
ghost use Rattle.page_area.specs.declared.refusal.PageRefusal.TheVariants.{Disk};
ghost use Rattle.page_area.specs.Place.{bytes_of_page, HasDiskCause};
ghost use Rattle.page_area.specs.InPlace.{AreTorn, HasTornPages, HasCopy};
ghost use Rattle.logged_journal.specs.Checkpoints.{page_in, has_changed, changed_below, AreThere, OnlyPlaces};

use cell_page::Page;
use core_store::Frame;
use disk_model::Disk;
use page_area::{PageRefusal, write_pages};
use page_marks::PageMarks;

/// No page takes more bytes.
const LONGEST_PAGE: usize = 1024;

/// Adds the bytes of the page to those of a run of neighbouring pages, in room that is there. It takes no memory.
fn spell_page<const SLOTS: usize>(run: &mut Vec<u8>, frame: &Frame<SLOTS>)
    requires count { IsSlotCount SLOTS }
    requires spelled { (page : ℕ) × IsPage page frame.now.page }
    requires room { vec_len run.old + page_size SLOTS ≤ vec_capacity run.old }
    ensures bytes { run.new.items ≡ run.old.items ++ page_bytes frame.now.page }
    ensures size { length (page_bytes frame.now.page) ≡ page_size SLOTS }
    ensures capacity { vec_capacity run.old ≤ vec_capacity run.new }
{
    let mut buffer = [0; LONGEST_PAGE];
    let size = Page::<SLOTS>::encoded_len();
    let bytes = &mut buffer[..size];
    frame.page.encode(bytes);
    let _ = run.extend_from_slice(bytes);
}

/// Writes a run of neighbouring pages in place, from the page of this number on, by one disk call, and begins a new run. A run
/// without pages makes no disk call.
fn write_run<D: Disk, const SLOTS: usize>(
    disk: &mut D,
    first: u16,
    run: &mut Vec<u8>,
) -> Result<(), PageRefusal>
    requires count { IsSlotCount SLOTS }
    requires reaches { IfSome (D.content disk.old Pages) (λ area. page_size SLOTS * «first» ≤ length area) }
    requires copied { (k : ℕ) → page_size SLOTS * (k + 1) ≤ length run.old.items → EachImage D.may_leave disk.old (HasCopy SLOTS («first» + k) (bytes_of_page SLOTS k run.old.items)) }
    ensures pages { OnOk result (IfSome (D.content disk.new Pages) (λ area. (k : ℕ) → page_size SLOTS * (k + 1) ≤ length run.old.items
        → bytes_of_page SLOTS («first» + k) area ≡ bytes_of_page SLOTS k run.old.items)) }
    ensures untold { OnOk result (D.content disk.old Pages ≡ None → D.content disk.new Pages ≡ None) }
    ensures torn { (count : ℕ) → length run.old.items ≡ page_size SLOTS * count → Steps (AreTorn SLOTS «first» count) (D.content disk.old Pages) (D.content disk.new Pages) }
    ensures left { (count : ℕ) → length run.old.items ≡ page_size SLOTS * count → Follows D.content D.may_leave (AreTorn SLOTS «first» count) disk.old disk.new Pages }
    ensures moments { (count : ℕ) → length run.old.items ≡ page_size SLOTS * count
        → LeavesOnlyImages D.moment D.left_since disk.old disk.new (HasTornPages D.may_leave disk.old SLOTS «first» count) }
    ensures keeps { KeepsOthers D.content D.may_leave disk.old disk.new Pages }
    ensures anew { OnOk result (run.new.items ≡ []) }
    ensures capacity { vec_capacity run.old ≤ vec_capacity run.new }
    ensures refusals { IfErr result (λ e. e ≡ Disk) }
    ensures cause { HasDiskCause (D.faults disk.old) (D.faults disk.new) result }
{
    if run.is_empty() {
        return Ok(());
    }
    write_pages::<D, SLOTS>(disk, first, run)?;
    run.clear();
    Ok(())
}

/// Writes the changed pages in place, and no others: neighbouring ones by one disk call. It takes no memory where there is room
/// for the bytes of all of them. What it wrote lasts once the pages area was synced.
pub(crate) fn place_changed<D: Disk, const SLOTS: usize>(
    disk: &mut D,
    marks: &PageMarks,
    frames: &[Frame<SLOTS>],
    run: &mut Vec<u8>,
) -> Result<(), PageRefusal>
    requires count { IsSlotCount SLOTS }
    requires as_many { length frames.now ≡ length marks.now }
    requires few { length frames.now ≤ 1024 }
    requires spelled { (page : ℕ) → page < length frames.now → IsPage page (page_in frames.now page) }
    requires long { Leaves D.may_leave disk.old Pages (λ area. page_size SLOTS * length marks.now ≤ length area) }
    requires copied { (page : ℕ) → page < length marks.now → has_changed marks.now page ≡ true → EachImage D.may_leave disk.old (HasCopy SLOTS page (page_bytes (page_in frames.now page))) }
    requires room { page_size SLOTS * length (changed_below marks.now (length marks.now)) ≤ vec_capacity run.old }
    ensures there { OnOk result (IfSome (D.content disk.new Pages) (AreThere frames.now marks.now (length marks.now))) }
    ensures only { OnlyPlaces D.content D.may_leave D.moment D.left_since D.faults SLOTS marks.now disk.old disk.new }
    ensures capacity { vec_capacity run.old ≤ vec_capacity run.new }
    ensures refusals { IfErr result (λ e. e ≡ Disk) }
    ensures cause { HasDiskCause (D.faults disk.old) (D.faults disk.new) result }
{
    run.clear();
    let mut first = 0;
    for (page, frame) in frames.iter().enumerate() {
        if marks.get(page as u16).changed {
            spell_page(run, frame);
        } else {
            write_run::<D, SLOTS>(disk, first, run)?;
            first = page as u16 + 1;
        }
    }
    write_run::<D, SLOTS>(disk, first, run)
}
