//! The pages that a store is made with.
ghost use Rattle.std.specs.Prelude.{◌≡◌, ◌<◌, ◌≤◌, [], length, slice_index_or};
ghost use Rattle.cell_page.specs.Format.{IsSlotCount, IsPage, AreTyped};
ghost use Rattle.restart_store.specs.Fresh.{AreNew, pages_of};

use cell_page::Page;

/// The pages that a store is made with.
#[derive(Clone, Copy)]
pub(crate) enum NewPages<'a, const SLOTS: usize> {
    /// So many pages of a fresh store.
    Fresh(u16),
    /// These pages.
    Given(&'a [Page<SLOTS>]),
}

/// How many pages there are.
pub(crate) fn count<const SLOTS: usize>(pages: NewPages<SLOTS>) -> u16
    requires { AreNew pages }
    ensures count { result ≡ length (pages_of pages.entry) }
    ensures few { result ≤ 1024 }
{
    match pages {
        NewPages::Fresh(count) => count,
        NewPages::Given(given) => given.len() as u16,
    }
}

/// The page of this number.
pub(crate) fn page_at<const SLOTS: usize>(pages: NewPages<SLOTS>, page: u16) -> Page<SLOTS>
    requires slots { IsSlotCount SLOTS }
    requires new { AreNew pages }
    requires within { page < length (pages_of pages) }
    ensures page { result ≡ slice_index_or (pages_of pages.entry) page [] }
    ensures rules { IsPage page result }
    ensures typed { AreTyped result }
{
    match pages {
        NewPages::Fresh(_) => Page::fresh(page),
        NewPages::Given(given) => given[page as usize],
    }
}
