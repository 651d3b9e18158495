//! The disk calls that read a page.
ghost use Rattle.std.specs.Prelude.{◌≡◌, ◌+◌, ◌≤◌, ℕ, List, length, take, IfOk, IfSome, IsErrOf};
ghost use Rattle.disk_model.specs.Causes.{HasCause};
ghost use Rattle.disk_model.specs.Told.{KeepsAll, IsImage};
ghost use Rattle.disk_model.specs.Time.{LeavesOnlyImages};
ghost use Rattle.disk_model.specs.declared.area.Area.TheVariants.{Pages};
ghost use Rattle.cell_page.specs.Format.{IsSlotCount, IsPage, AreTyped, Spells, page_size};
ghost use Rattle.cell_page.specs.Fields.{FailsAt};
ghost use Rattle.page_area.specs.declared.refusal.PageRefusal.TheVariants.{Damaged};
ghost use Rattle.page_area.specs.Place.{bytes_of_page, IsNoPage, HasDiskCause};

use crate::refusal::PageRefusal;
use cell_page::Page;
use disk_model::{Area, Disk, DiskFailed};

/// No page takes more bytes.
pub(crate) const MOST: usize = 1024;

/// Reads as many bytes of the page as the area has, to the front of the buffer, and answers their number.
fn read_page<D: Disk, const SLOTS: usize>(
    disk: &mut D,
    page: u16,
    into: &mut [u8],
) -> Result<usize, DiskFailed>
    requires count { IsSlotCount SLOTS }
    requires room { page_size SLOTS ≤ length into.old }
    ensures within { IfOk result (λ n. n ≤ page_size SLOTS) }
    ensures same_len { length into.new ≡ length into.old }
    ensures bytes { IfOk result (λ n. IfSome (D.content disk.old Pages) (λ area. take n into.new ≡ bytes_of_page SLOTS page area)) }
    ensures keeps { KeepsAll D.content D.may_leave disk.old disk.new }
    ensures moments { LeavesOnlyImages D.moment D.left_since disk.old disk.new (IsImage D.may_leave disk.old) }
    ensures cause { HasCause (D.faults disk.old) (D.faults disk.new) result }
{
    let size = Page::<SLOTS>::encoded_len();
    let at = size as u64 * page as u64;
    let len = disk.len(Area::Pages)?;
    if len <= at {
        return Ok(0);
    }
    let there = (len - at).min(size as u64) as usize;
    disk.read_at(Area::Pages, at, &mut into[..there])?;
    Ok(there)
}

/// The page of this number, from 0, as it stands in the pages area. It takes no memory.
///
/// Of an area that is told, [`PageRefusal::Damaged`] comes exactly where the bytes there are no page of this
/// number, and tells the place. [`PageRefusal::Disk`] comes only where the disk's count of faults rose in
/// this call.
pub fn load<D: Disk, const SLOTS: usize>(
    disk: &mut D,
    page: u16,
) -> Result<Page<SLOTS>, PageRefusal>
    requires count { IsSlotCount SLOTS }
    ensures page { IfOk result (λ cells. IfSome (D.content disk.old Pages) (λ area. Spells page cells (bytes_of_page SLOTS page area))) }
    ensures typed { IfOk result AreTyped }
    ensures rules { IfOk result (IsPage page) }
    ensures no_page { (at : ℕ) → IsErrOf result (Damaged at) → IfSome (D.content disk.old Pages) (λ area. IsNoPage SLOTS page (bytes_of_page SLOTS page area)) }
    ensures place { (at : ℕ) → IsErrOf result (Damaged at) → IfSome (D.content disk.old Pages) (λ area. FailsAt SLOTS page (bytes_of_page SLOTS page area) at) }
    ensures keeps { KeepsAll D.content D.may_leave disk.old disk.new }
    ensures moments { LeavesOnlyImages D.moment D.left_since disk.old disk.new (IsImage D.may_leave disk.old) }
    ensures cause { HasDiskCause (D.faults disk.old) (D.faults disk.new) result }
{
    let mut buffer = [0; MOST];
    let there = read_page::<D, SLOTS>(disk, page, &mut buffer)?;
    match Page::decode(page, &buffer[..there]) {
        Ok(cells) => Ok(cells),
        Err(bad) => Err(PageRefusal::Damaged { at: bad.at }),
    }
}
