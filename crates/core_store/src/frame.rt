//! The frame, which holds one page of the store.

use cell_page::Page;

/// One page of the store, in memory.
#[derive(Clone, Copy, PartialEq, Eq, Debug)]
pub struct Frame<const SLOTS: usize> {
    /// The page.
    pub page: Page<SLOTS>,
}
