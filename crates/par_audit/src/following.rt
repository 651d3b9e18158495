//! Following pointers, one after another: what they lead to is reached and listed.
ghost use Rattle.std.specs.Prelude.{◌≡◌, ◌==◌, ◌≤◌, length, drop, IfOk};
ghost use Rattle.par_audit.specs.Marks.{Follows, is_in, is_named, slots_at};

use crate::marks::{clear_mark, has_mark};
use cell_page::Cell;
use plain_model::Memory;

/// Reaches and lists the object of this id, where it isn't reached yet.
#[inline(always)]
pub(crate) fn visit(unreached: &mut [u64], found: &mut Vec<u32>, id: u32) -> Result<(), Memory>
    ensures { IfOk result (λ _. Follows (λ x. id == x) unreached.old unreached.new found.old.items found.new.items) }
{
    if has_mark(unreached, id) {
        clear_mark(unreached, id);
        found.push(id)?;
    }
    Ok(())
}

/// Reaches and lists the objects that these slots name and that aren't reached yet.
#[inline(always)]
fn follow_slots(unreached: &mut [u64], found: &mut Vec<u32>, slots: &[u32]) -> Result<(), Memory>
    ensures { IfOk result (λ _. Follows (is_in slots.now) unreached.old unreached.new found.old.items found.new.items) }
{
    for target in slots {
        visit(unreached, found, *target)?;
    }
    Ok(())
}

/// Reaches and lists the objects that the id's cell names and that aren't reached yet.
#[inline(always)]
fn follow<const SLOTS: usize>(
    cells: &[Cell<SLOTS>],
    unreached: &mut [u64],
    found: &mut Vec<u32>,
    id: u32,
) -> Result<(), Memory>
    ensures { IfOk result (λ _. Follows (is_in (slots_at cells.now id)) unreached.old unreached.new found.old.items found.new.items) }
{
    if let Some(cell) = cells.get(id as usize) {
        follow_slots(unreached, found, &cell.slots)?;
    }
    Ok(())
}

/// Follows the objects that are listed from this place on, one after another. Those that it finds stand after them.
pub(crate) fn follow_in_turn<const SLOTS: usize>(
    cells: &[Cell<SLOTS>],
    unreached: &mut [u64],
    found: &mut Vec<u32>,
    from: usize,
) -> Result<(), Memory>
    requires { from ≤ length found.old.items }
    ensures { IfOk result (λ _. Follows (is_named cells.now (drop from found.old.items)) unreached.old unreached.new found.old.items found.new.items) }
{
    for i in from..found.len() {
        let id = found[i];
        follow(cells, unreached, found, id)?;
    }
    Ok(())
}
