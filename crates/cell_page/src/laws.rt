//! What holds of the page format alone.

ghost use Rattle.std.specs.Prelude.{◌≡◌, ℕ, List};
ghost use Rattle.cell_page.specs.declared.cell.Cell.{Cell};
ghost use Rattle.cell_page.specs.Format.{IsSlotCount, AreTyped, Spells};

use crate::layout::{CELLS_OF_PAGE, ROOT};

/// The numbers that other crates count by.
pub fn first_numbers()
    ensures cells { CELLS_OF_PAGE ≡ 8 }
    ensures root { ROOT ≡ 1 }
{}

/// No page has two spellings, and no bytes spell two pages.
pub fn spelled_once()
    ensures bytes { (slots page other : ℕ) (cells : List (Cell slots)) (bytes more : List ℕ) →
        Spells page cells bytes → Spells other cells more → bytes ≡ more }
    ensures page { (slots page other : ℕ) (cells others : List (Cell slots)) (bytes : List ℕ) →
        IsSlotCount slots → AreTyped cells → AreTyped others →
        Spells page cells bytes → Spells other others bytes → (page ≡ other) × (cells ≡ others) }
{}
