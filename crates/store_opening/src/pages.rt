//! The pages of a store before its log is done to them.
ghost use Rattle.std.specs.Prelude.{◌≡◌, ◌≤◌, ℕ, List, [], ◌∷◌, ◌++◌, length, IfOk, IfSome, OnOk, IsErrOf};
ghost use Rattle.cell_page.specs.declared.cell.Cell.{Cell};
ghost use Rattle.disk_model.specs.declared.area.Area.TheVariants.{Pages};
ghost use Rattle.cell_page.specs.Format.{IsSlotCount, IsPage};
ghost use Rattle.log_replay.specs.Inside.{AreStorePages};
ghost use Rattle.store_opening.specs.declared.pages.PagesRefusal.TheVariants.{Damaged};
ghost use Rattle.store_opening.specs.Looks.{IsLookedAt};
ghost use Rattle.store_opening.specs.Loaded.{IsLoaded, AreLoaded, IsDamagedAt, IsFirstDamaged, HasPagesCause};

use cell_page::Page;
use disk_model::Disk;
use page_area::{PageRefusal, load};
use std::alloc::{AllocError, Global};
use thiserror::Error;

/// Why the pages of a store aren't loaded.
#[derive(Clone, Copy, Debug, PartialEq, Eq, Error)]
pub enum PagesRefusal {
    /// The disk failed a call. Its count of faults rose.
    #[error("a disk call failed")]
    Disk,
    /// What stands in the place of a page is no page.
    #[error("page {page} is damaged at byte {at}")]
    Damaged {
        /// The number of the page, from 0.
        page: u16,
        /// The offset in the page, in bytes, of the first field that breaks the page format. Of a page that the area
        /// cuts off, the number of its bytes that are there.
        at: u32,
    },
    /// Out of memory.
    #[error("out of memory")]
    Memory,
}

impl From<AllocError> for PagesRefusal {
    ghost use Rattle.store_opening.specs.declared.pages.PagesRefusal.TheVariants.{Memory};

    ghost from_gives = { λ _ refusal. refusal ≡ Memory };

    fn from(_: AllocError) -> Self {
        PagesRefusal::Memory
    }
}

/// The page of this number where it stands.
fn page_in_place<D: Disk, const SLOTS: usize>(
    disk: &mut D,
    page: u16,
) -> Result<Page<SLOTS>, PagesRefusal>
    requires count { IsSlotCount SLOTS }
    ensures rules { IfOk result (IsPage page) }
    ensures loaded { IfOk result (λ cells. IfSome (D.content disk.old Pages) (λ area. IsLoaded SLOTS page area cells)) }
    ensures number { (p at : ℕ) → IsErrOf result (Damaged p at) → p ≡ page }
    ensures damaged { (p at : ℕ) → IsErrOf result (Damaged p at) → IfSome (D.content disk.old Pages) (λ area. IsDamagedAt SLOTS page at area) }
    ensures looks { IsLookedAt D.content D.may_leave D.moment D.left_since disk.old disk.new }
    ensures cause { HasPagesCause (D.faults disk.old) (D.faults disk.new) result }
{
    match load(disk, page) {
        Ok(cells) => Ok(cells),
        Err(PageRefusal::Disk) => Err(PagesRefusal::Disk),
        Err(PageRefusal::Damaged { at }) => Err(PagesRefusal::Damaged { page, at }),
    }
}

/// Loads the page of this number after those that were loaded, unless the log has an image of it: then a new page stands
/// for it.
fn load_next<D: Disk, const SLOTS: usize>(
    disk: &mut D,
    pages: &mut Vec<Page<SLOTS>>,
    page: u16,
    images: u32,
) -> Result<(), PagesRefusal>
    requires count { IsSlotCount SLOTS }
    ensures one { OnOk result ((held : List (Cell SLOTS)) × (pages.new.items ≡ pages.old.items ++ held ∷ []) × IsPage page held
        × (images ≡ 0 → IfSome (D.content disk.old Pages) (λ area. IsLoaded SLOTS page area held))) }
    ensures number { (p at : ℕ) → IsErrOf result (Damaged p at) → (p ≡ page) × (images ≡ 0) }
    ensures damaged { (p at : ℕ) → IsErrOf result (Damaged p at) → IfSome (D.content disk.old Pages) (λ area. IsDamagedAt SLOTS page at area) }
    ensures looks { IsLookedAt D.content D.may_leave D.moment D.left_since disk.old disk.new }
    ensures cause { HasPagesCause (D.faults disk.old) (D.faults disk.new) result }
{
    if images > 0 {
        pages.push(Page::fresh(page)).map_err(AllocError::from)?;
        return Ok(());
    }
    match page_in_place(disk, page) {
        Ok(held) => {
            pages.push(held).map_err(AllocError::from)?;
            Ok(())
        }
        Err(refusal) => Err(refusal),
    }
}

/// Loads the pages of a store in their order. Of each the log has so many images, and where it has one the page isn't
/// read.
///
/// Of an area that is told, [`PagesRefusal::Damaged`] comes exactly for the first page without an image that is none, and
/// tells the place. [`PagesRefusal::Disk`] comes only where the disk's count of faults rose in this call.
pub fn load_pages<D: Disk, const SLOTS: usize>(
    alloc: Global,
    disk: &mut D,
    images: &[u32],
) -> Result<Vec<Page<SLOTS>>, PagesRefusal>
    requires count { IsSlotCount SLOTS }
    requires number { (1 ≤ length images.now) × (length images.now ≤ 1024) }
    ensures pages { IfOk result (λ pages. AreStorePages pages.items) }
    ensures number { IfOk result (λ pages. length pages.items ≡ length images.now) }
    ensures loaded { IfOk result (λ pages. IfSome (D.content disk.old Pages) (λ area. AreLoaded SLOTS images.now (length images.now) area pages.items)) }
    ensures damaged { (page at : ℕ) → IsErrOf result (Damaged page at) → IfSome (D.content disk.old Pages) (λ area. IsFirstDamaged SLOTS images.now page at area) }
    ensures looks { IsLookedAt D.content D.may_leave D.moment D.left_since disk.old disk.new }
    ensures cause { HasPagesCause (D.faults disk.old) (D.faults disk.new) result }
{
    let mut pages = Vec::with_capacity(alloc, images.len())?;
    'pages: for (page, images) in images.iter().enumerate() {
        if let Err(refusal) = load_next(disk, &mut pages, page as u16, *images) {
            return Err(refusal);
        }
    }
    Ok(pages)
}
