//! What a checkpoint needs.
ghost use Rattle.std.specs.Prelude.{◌≡◌, ℕ, ◌<◌, ◌≤◌, length};
ghost use Rattle.logged_journal.specs.Checkpoints.{changed_below, wanted_below};

use page_marks::PageMarks;

/// How many pages a checkpoint writes, and of how many it appends an image.
#[derive(Clone, Copy)]
pub(crate) struct TurnNeeds {
    /// The pages that changed.
    pub(crate) changed: usize,
    /// Those of them without a current image.
    pub(crate) images: usize,
}

impl TurnNeeds {
    /// By the marks of so many pages.
    pub(crate) fn of(marks: &PageMarks, pages: u16) -> TurnNeeds
        requires { pages ≤ length marks.now }
        ensures changed { result.changed ≡ length (changed_below marks.now pages) }
        ensures images { result.images ≡ length (wanted_below marks.now pages) }
        ensures few { (result.changed ≤ pages) × (result.images ≤ result.changed) }
    {
        let mut changed = 0;
        let mut images = 0;
        for page in 0..pages {
            let mark = marks.get(page);
            if mark.changed {
                changed += 1;
                if !mark.current {
                    images += 1;
                }
            }
        }
        TurnNeeds { changed, images }
    }
}
