//! The pages area and the two log areas of a new store.
ghost use Rattle.std.specs.Prelude.{◌≡◌, ◌≢◌, ⊤, ◌*◌, ◌≤◌, ◌++◌, [], List, length, option_map, IfSome, OnOk};
ghost use Rattle.std.specs.List.{flat_map};
ghost use Rattle.disk_model.specs.Causes.{HasCause};
ghost use Rattle.disk_model.specs.Areas.{in_area};
ghost use Rattle.disk_model.specs.Told.{Keeps, KeepsOthers, IsImageBut};
ghost use Rattle.disk_model.specs.Time.{Elapses, LeavesOnlyImages};
ghost use Rattle.disk_model.specs.declared.area.Area.TheVariants.{Pages, Super};
ghost use Rattle.cell_page.specs.Format.{IsSlotCount, IsPage, page_size, page_bytes};
ghost use Rattle.log_record.specs.Spelling.{known_version};
ghost use Rattle.restart_store.specs.Fresh.{IsMade, AreNew, pages_of, first_body_of, store_of};

use crate::pages::{NewPages, count, page_at};
use cell_page::Page;
use disk_model::{Area, Disk, DiskFailed};
use gate_log::make_anew;

/// How many bytes the longest page takes.
const LONGEST_PAGE: usize = 1024;

/// The kind of the record that a log begins with.
const TURN: u8 = 14;

/// The version of the format.
fn version<const SLOTS: usize>() -> u8
    requires { IsSlotCount SLOTS }
    ensures { result ≡ known_version SLOTS }
{
    if SLOTS == 6 { 1 } else { 2 }
}

/// Writes the page, which is that of this number, at the end of the pages area, where it belongs.
fn write_page<D: Disk, const SLOTS: usize>(
    disk: &mut D,
    number: u16,
    page: &Page<SLOTS>,
) -> Result<(), DiskFailed>
    requires count { IsSlotCount SLOTS }
    requires few { SLOTS ≤ 14 }
    requires rules { IsPage number page.now }
    requires place { IfSome (D.content disk.old Pages) (λ c. length c ≡ page_size SLOTS * number) }
    ensures bytes { OnOk result (D.content disk.new Pages ≡ option_map (λ c. c ++ page_bytes page.now) (D.content disk.old Pages)) }
    ensures keeps { KeepsOthers D.content D.may_leave disk.old disk.new Pages }
    ensures time { Elapses D.may_leave D.moment D.left_since disk.old disk.new }
    ensures cause { HasCause (D.faults disk.old) (D.faults disk.new) result }
{
    let len = Page::<SLOTS>::encoded_len();
    let mut bytes = [0; LONGEST_PAGE];
    let spelled = &mut bytes[..len];
    page.encode(spelled);
    disk.write_at(Area::Pages, len as u64 * number as u64, spelled)
}

/// Writes the pages into the pages area, which is empty.
fn write_pages<D: Disk, const SLOTS: usize>(
    disk: &mut D,
    pages: NewPages<SLOTS>,
) -> Result<(), DiskFailed>
    requires count { IsSlotCount SLOTS }
    requires new { AreNew pages }
    requires empty { IfSome (D.content disk.old Pages) (λ c. c ≡ []) }
    ensures bytes { OnOk result (D.content disk.new Pages ≡ option_map (λ _. flat_map page_bytes (pages_of pages.entry)) (D.content disk.old Pages)) }
    ensures moments { LeavesOnlyImages D.moment D.left_since disk.old disk.new (IsImageBut D.may_leave disk.old Pages (λ _. ⊤)) }
    ensures keeps { KeepsOthers D.content D.may_leave disk.old disk.new Pages }
    ensures cause { HasCause (D.faults disk.old) (D.faults disk.new) result }
{
    for number in 0..count(pages) {
        write_page(disk, number, &page_at(pages, number))?;
    }
    Ok(())
}

/// Makes the pages area anew, for good.
fn make_pages<D: Disk, const SLOTS: usize>(
    disk: &mut D,
    pages: NewPages<SLOTS>,
) -> Result<(), DiskFailed>
    requires count { IsSlotCount SLOTS }
    requires new { AreNew pages }
    ensures made { OnOk result (IsMade D.content D.may_leave disk.old disk.new Pages (flat_map page_bytes (pages_of pages.entry))) }
    ensures moments { LeavesOnlyImages D.moment D.left_since disk.old disk.new (IsImageBut D.may_leave disk.old Pages (λ _. ⊤)) }
    ensures keeps { KeepsOthers D.content D.may_leave disk.old disk.new Pages }
    ensures cause { HasCause (D.faults disk.old) (D.faults disk.new) result }
{
    disk.cut(Area::Pages, 0)?;
    write_pages(disk, pages)?;
    disk.sync(Area::Pages)?;
    Ok(())
}

/// The body of the first batch of a log of so many pages: one `Turn` record, of the version of stores with so many slots.
pub fn first_body<const SLOTS: usize>(pages: u16) -> [u8; 4]
    requires count { IsSlotCount SLOTS }
    ensures { result ≡ first_body_of SLOTS pages }
{
    let pages = pages.to_be_bytes();
    [TURN, version::<SLOTS>(), pages[0], pages[1]]
}

/// Makes all areas of a new store anew but the super area, for good.
///
/// At each moment a loss of power leaves the super area as before, whatever it answers.
pub(crate) fn make_areas<D: Disk, const SLOTS: usize>(
    disk: &mut D,
    pages: NewPages<SLOTS>,
) -> Result<(), DiskFailed>
    requires count { IsSlotCount SLOTS }
    requires new { AreNew pages }
    ensures made { OnOk result ((area : _) → area ≢ Super → IsMade D.content D.may_leave disk.old disk.new area (in_area (store_of (pages_of pages.entry) 0) area)) }
    ensures moments { LeavesOnlyImages D.moment D.left_since disk.old disk.new (λ image. D.may_leave disk.old Super (in_area image Super)) }
    ensures keeps { Keeps D.content D.may_leave disk.old disk.new Super }
    ensures cause { HasCause (D.faults disk.old) (D.faults disk.new) result }
{
    let first = first_body::<SLOTS>(count(pages));
    make_pages(disk, pages)?;
    make_anew(disk, Area::LogA, &first)?;
    make_anew(disk, Area::LogB, &first)?;
    Ok(())
}
