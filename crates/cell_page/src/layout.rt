//! Where things stand in a page, and pages in a store.

ghost use Rattle.std.specs.Prelude.{◌≡◌, ◌+◌, ◌<◌, ◌≤◌};
ghost use Rattle.std.specs.Int.{IsNextPowerOfTwo};
ghost use Rattle.cell_page.specs.Format.{IsSlotCount, fields_size, cell_size, first_id, page_of_id};

/// How many cells a page has.
pub const CELLS_OF_PAGE: usize = 8;

/// The root's id.
pub const ROOT: u32 = 1;

/// The offset of the slots in a cell: how many bytes its other fields take.
pub(crate) const SLOTS_AT: usize = 24;

/// How many bytes a cell takes.
pub(crate) fn cell_len<const SLOTS: usize>() -> usize
    requires { IsSlotCount SLOTS }
    ensures exact { result ≡ cell_size SLOTS }
    ensures least { IsNextPowerOfTwo (fields_size SLOTS) result }
{
    if SLOTS == 6 { 64 } else { 128 }
}

/// The id of the first cell of a page, which is counted from 0.
pub fn first_id(page: u16) -> u32
    ensures { result ≡ first_id page }
{
    CELLS_OF_PAGE as u32 * page as u32 + 1
}

/// The page of an id, counted from 0.
pub fn page_of(id: u32) -> u16
    requires above { 0 < id }
    requires few { id ≤ 524288 }
    ensures page { result ≡ page_of_id id }
    ensures there { (first_id result ≤ id) × (id < first_id result + 8) }
{
    ((id - 1) / CELLS_OF_PAGE as u32) as u16
}
