//! The disk call that writes pages in place.
ghost use Rattle.std.specs.Prelude.{◌≡◌, ◌+◌, ◌*◌, ◌≤◌, ℕ, List, length, option_map, IfErr, IfSome, OnOk};
ghost use Rattle.disk_model.specs.Changes.{written};
ghost use Rattle.disk_model.specs.Told.{KeepsOthers, Follows, Steps, EachImage};
ghost use Rattle.disk_model.specs.Time.{LeavesOnlyImages};
ghost use Rattle.disk_model.specs.declared.area.Area.TheVariants.{Pages};
ghost use Rattle.cell_page.specs.Format.{IsSlotCount, IsPage, Spells, page_size, page_bytes};
ghost use Rattle.page_area.specs.declared.refusal.PageRefusal.TheVariants.{Disk};
ghost use Rattle.page_area.specs.Place.{bytes_of_page, HasDiskCause};
ghost use Rattle.page_area.specs.InPlace.{AreTorn, HasTornPages, HasCopy};

use crate::read::MOST;
use crate::refusal::PageRefusal;
use cell_page::Page;
use disk_model::{Area, Disk};

/// Writes the bytes of neighbouring pages in place, from the page of this number on. It is one disk call, and takes no
/// memory. What it wrote lasts once the pages area was synced.
///
/// At each moment, and whatever it answers, a power loss leaves what it left before, but for any bytes in these pages. So
/// each of them is, for good, the last image of its page in the log that the super area names. [`PageRefusal::Disk`], the only refusal, comes only where the disk's count
/// of faults rose in this call.
pub fn write_pages<D: Disk, const SLOTS: usize>(
    disk: &mut D,
    first: u16,
    bytes: &[u8],
) -> Result<(), PageRefusal>
    requires count { IsSlotCount SLOTS }
    requires reaches { IfSome (D.content disk.old Pages) (λ area. page_size SLOTS * «first» ≤ length area) }
    requires copied { (k : ℕ) → page_size SLOTS * (k + 1) ≤ length bytes.now → EachImage D.may_leave disk.old (HasCopy SLOTS («first» + k) (bytes_of_page SLOTS k bytes.now)) }
    ensures bytes { OnOk result (D.content disk.new Pages ≡ option_map (written (page_size SLOTS * «first») bytes.now) (D.content disk.old Pages)) }
    ensures pages { OnOk result (IfSome (D.content disk.new Pages) (λ area. (k : ℕ) → page_size SLOTS * (k + 1) ≤ length bytes.now
        → bytes_of_page SLOTS («first» + k) area ≡ bytes_of_page SLOTS k bytes.now)) }
    ensures torn { (count : ℕ) → length bytes.now ≡ page_size SLOTS * count → Steps (AreTorn SLOTS «first» count) (D.content disk.old Pages) (D.content disk.new Pages) }
    ensures left { (count : ℕ) → length bytes.now ≡ page_size SLOTS * count → Follows D.content D.may_leave (AreTorn SLOTS «first» count) disk.old disk.new Pages }
    ensures moments { (count : ℕ) → length bytes.now ≡ page_size SLOTS * count
        → LeavesOnlyImages D.moment D.left_since disk.old disk.new (HasTornPages D.may_leave disk.old SLOTS «first» count) }
    ensures keeps { KeepsOthers D.content D.may_leave disk.old disk.new Pages }
    ensures refusals { IfErr result (λ e. e ≡ Disk) }
    ensures cause { HasDiskCause (D.faults disk.old) (D.faults disk.new) result }
{
    let at = Page::<SLOTS>::encoded_len() as u64 * first as u64;
    disk.write_at(Area::Pages, at, bytes)?;
    Ok(())
}

/// Writes the page in place, by its one spelling. It takes no memory. What it wrote lasts once the pages area was synced.
///
/// At each moment, and whatever it answers, a power loss leaves what it left before, but for any bytes in this page. So the
/// page is, for good, its last image in the log that the super area names, and such a log needs no bytes of it in place.
/// [`PageRefusal::Disk`], the only refusal, comes only where the disk's count of faults rose in this call.
pub fn write_in_place<D: Disk, const SLOTS: usize>(
    disk: &mut D,
    page: u16,
    frame: &Page<SLOTS>,
) -> Result<(), PageRefusal>
    requires count { IsSlotCount SLOTS }
    requires spelled { IsPage page frame.now }
    requires reaches { IfSome (D.content disk.old Pages) (λ area. page_size SLOTS * page ≤ length area) }
    requires copied { EachImage D.may_leave disk.old (HasCopy SLOTS page (page_bytes frame.now)) }
    ensures bytes { OnOk result (D.content disk.new Pages ≡ option_map (written (page_size SLOTS * page) (page_bytes frame.now)) (D.content disk.old Pages)) }
    ensures there { OnOk result (IfSome (D.content disk.new Pages) (λ area. Spells page frame.now (bytes_of_page SLOTS page area))) }
    ensures torn { Steps (AreTorn SLOTS page 1) (D.content disk.old Pages) (D.content disk.new Pages) }
    ensures left { Follows D.content D.may_leave (AreTorn SLOTS page 1) disk.old disk.new Pages }
    ensures moments { LeavesOnlyImages D.moment D.left_since disk.old disk.new (HasTornPages D.may_leave disk.old SLOTS page 1) }
    ensures keeps { KeepsOthers D.content D.may_leave disk.old disk.new Pages }
    ensures refusals { IfErr result (λ e. e ≡ Disk) }
    ensures cause { HasDiskCause (D.faults disk.old) (D.faults disk.new) result }
{
    let mut buffer = [0; MOST];
    let size = Page::<SLOTS>::encoded_len();
    let bytes = &mut buffer[..size];
    frame.encode(bytes);
    write_pages::<D, SLOTS>(disk, page, bytes)
}
