//! Which object a new pointer makes strong.

ghost use Rattle.std.specs.Prelude.{◌≡◌, ◌==◌};
ghost use Rattle.std.specs.List.{list_all};
ghost use Rattle.strength_counts.specs.Changes.{takes_strong};
ghost use Rattle.cell_page.specs.Stored.{cell_of};

use cell_page::Cell;

/// Whether all slots are null.
fn are_null(slots: &[u32]) -> bool
    ensures { result ≡ list_all (λ target. target == 0) slots.now }
{
    slots.iter().all(|target| *target == 0)
}

/// Whether a new pointer to this object, from another, is strong.
#[tactic(auto, using(crate::proofs::Slots::list_all_pointers))]
pub fn takes_strong<const SLOTS: usize>(cell: &Cell<SLOTS>) -> bool
    ensures { result ≡ takes_strong (cell_of cell.now) }
{
    cell.strong == 0 && are_null(&cell.slots)
}
