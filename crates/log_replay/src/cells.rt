//! The cells of a replay, one by one.

ghost use Rattle.std.specs.Prelude.{◌≡◌, ◌+◌, ◌*◌, ◌<◌, ◌≤◌, ℕ, true, false, length, slice_index};
ghost use Rattle.cell_model.specs.Cells.{blank_cell, cell_at};
ghost use Rattle.cell_page.specs.Format.{IsSlotCount, IsCell};
ghost use Rattle.cell_page.specs.Stored.{cell_of};
ghost use Rattle.log_replay.specs.Finishes.{AreNoneAwaited};
ghost use Rattle.log_replay.specs.Inside.{cells_of_pages, AreStorePages};
ghost use Rattle.log_replay.specs.Replays.{IsReplaying};

use crate::replay::Replay;
use cell_page::{Cell, Page};

/// Whether all numbers are 0.
fn are_zero(numbers: &[u32]) -> bool
    ensures yes { result ≡ true → (p : ℕ) → slice_index numbers.now p ≡ 0 }
    ensures unless { result ≡ false → ((p : ℕ) → slice_index numbers.now p ≡ 0) → ⊥ }
{
    for number in numbers {
        if *number != 0 {
            return false;
        }
    }
    true
}

impl<const SLOTS: usize> Replay<SLOTS> {
    /// Whether no image is still to come.
    pub fn has_all_images(&self) -> bool
        ensures yes { result ≡ true → AreNoneAwaited self.now.skips }
        ensures unless { result ≡ false → AreNoneAwaited self.now.skips → ⊥ }
    {
        are_zero(&self.skip)
    }

    /// The greatest id. The cells are one for each id, and a free one at 0, which is no id.
    pub fn last_id(&self) -> u32
        ensures ids { result ≡ 8 * length self.now.skips }
        ensures some { 8 ≤ result }
        ensures few { result ≤ 8192 }
        ensures sized { length self.now.cells ≡ result + 1 }
        ensures none { cell_at self.now.cells 0 ≡ blank_cell false SLOTS }
        ensures whole { IsReplaying SLOTS self.now }
    {
        self.pages.know_first();
        self.ids()
    }

    /// The cell of an id, as it is so far.
    pub fn cell(&self, id: u32) -> &Cell<SLOTS>
        requires above { 0 < id }
        requires within { id < length self.now.cells }
        ensures model { cell_of result.now ≡ cell_at self.now.cells id }
        ensures rules { IsCell id result.now }
        ensures slotted { length result.now.slots ≡ SLOTS }
        ensures slots { IsSlotCount SLOTS }
    {
        let _few = self.ids();
        self.pages.get(id)
    }

    /// The pages, in order.
    pub fn into_pages(self) -> Vec<Page<SLOTS>>
        ensures cells { cells_of_pages result.items ≡ self.entry.cells }
        ensures pages { AreStorePages result.items }
        ensures count { length result.items ≡ length self.entry.skips }
    {
        self.pages.into_pages()
    }
}
