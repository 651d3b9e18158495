//! The count of a piece's pointers: a count for each id and each bit, side by side.
ghost use Rattle.std.specs.Prelude.{◌≡◌, ◌<◌, ◌≤◌, ◌+◌, ◌*◌, ◌==◌, ℕ, Bool, [], cond, length, map, slice_index, IfOk};
ghost use Rattle.cell_model.specs.Cells.{aims_in, hits, pointer_in, pointers_to};
ghost use Rattle.cell_page.specs.Format.{IsSlotCount};
ghost use Rattle.cell_page.specs.Stored.{cell_of};
ghost use Rattle.par_audit.specs.Tables.{ArePairCounts, count_at, place_of};

use cell_page::Cell;
use plain_model::Memory;
use std::alloc::Global;

/// How many pointers from a piece lead to each id, by their bit. A count is that of its byte, and 256 for each time that its
/// place stands among the carries. So the table of a piece is small, and lies in a processor's own cache.
#[derive(Drop)]
pub struct PairCounts {
    /// The count at each place, less what was carried over.
    pub(crate) bytes: Vec<u8>,
    /// The places whose bytes were carried over, once for each time.
    pub(crate) carries: Vec<u32>,
}

/// The place of the count of the pointers to an id that have this bit, in a table of pairs.
#[inline(always)]
pub(crate) fn place_of(id: usize, bit: bool) -> usize
    requires { id ≤ 4294967295 }
    ensures { result ≡ place_of id bit }
{
    if bit { 2 * id + 1 } else { 2 * id }
}

/// How many numbers there are.
fn len_of(numbers: &[u32]) -> usize
    ensures { result ≡ length numbers.now }
{
    numbers.len()
}

/// Each cell has so many slots.
fn know_slots<const SLOTS: usize>(cell: &Cell<SLOTS>)
    ensures { length cell.now.slots ≡ SLOTS }
{
    let _ = len_of(&cell.slots);
}

/// Counts one at this place.
#[inline(always)]
fn count_one(bytes: &mut [u8], carries: &mut Vec<u32>, at: usize) -> Result<(), Memory>
    requires few { length bytes.old ≤ 33554432 }
    requires within { at < length bytes.old }
    ensures len { length bytes.new ≡ length bytes.old }
    ensures each { IfOk result (λ _. (place : ℕ) → count_at bytes.new carries.new.items place ≡ count_at bytes.old carries.old.items place + cond (at == place) 1 0) }
{
    let was = bytes[at];
    if was < 255 {
        bytes[at] = was + 1;
        return Ok(());
    }
    bytes[at] = 0;
    carries.push(at as u32)?;
    Ok(())
}

/// Counts the pointer of a slot at its target, by its bit. Null pointers are counted at index 0, which is no id.
#[inline(always)]
fn count_slot<const SLOTS: usize>(
    bytes: &mut [u8],
    carries: &mut Vec<u32>,
    cell: &Cell<SLOTS>,
    slot: u8,
) -> Result<(), Memory>
    requires size { IsSlotCount SLOTS }
    requires few { length bytes.old ≤ 33554432 }
    requires within { slot < SLOTS }
    ensures len { length bytes.new ≡ length bytes.old }
    ensures each { IfOk result (λ _. (id : ℕ) (bit : Bool) → place_of id bit < length bytes.old → count_at bytes.new carries.new.items (place_of id bit) ≡ count_at bytes.old carries.old.items (place_of id bit) + hits id bit (pointer_in (cell_of cell.now) slot)) }
{
    let target = cell.slots[slot as usize];
    let bit = cell.pointer_bit(slot);
    let at = place_of(target as usize, bit);
    if at < bytes.len() {
        count_one(bytes, carries, at)?;
    }
    Ok(())
}

/// Counts the pointers of a live cell, each at its target by its bit.
#[inline(always)]
fn count_cell<const SLOTS: usize>(
    bytes: &mut [u8],
    carries: &mut Vec<u32>,
    cell: &Cell<SLOTS>,
) -> Result<(), Memory>
    requires size { IsSlotCount SLOTS }
    requires few { length bytes.old ≤ 33554432 }
    ensures len { length bytes.new ≡ length bytes.old }
    ensures each { IfOk result (λ _. (id : ℕ) (bit : Bool) → place_of id bit < length bytes.old → count_at bytes.new carries.new.items (place_of id bit) ≡ count_at bytes.old carries.old.items (place_of id bit) + aims_in id bit (cell_of cell.now)) }
    ensures few { (id : ℕ) (bit : Bool) → aims_in id bit (cell_of cell.now) ≤ 14 }
{
    know_slots(cell);
    if cell.live {
        for slot in 0..SLOTS {
            count_slot(bytes, carries, cell, slot as u8)?;
        }
    }
    Ok(())
}

/// Counts the pointers of all live cells of a piece, each at its target by its bit.
fn count_cells<const SLOTS: usize>(
    bytes: &mut [u8],
    carries: &mut Vec<u32>,
    piece: &[Cell<SLOTS>],
) -> Result<(), Memory>
    requires size { IsSlotCount SLOTS }
    requires few { length bytes.old ≤ 33554432 }
    requires none { (place : ℕ) → slice_index bytes.old place ≡ 0 }
    requires new { carries.old.items ≡ [] }
    ensures len { length bytes.new ≡ length bytes.old }
    ensures each { IfOk result (λ _. (id : ℕ) (bit : Bool) → place_of id bit < length bytes.old → count_at bytes.new carries.new.items (place_of id bit) ≡ pointers_to (map cell_of piece.now) id bit) }
    ensures few { IfOk result (λ _. (id : ℕ) (bit : Bool) → place_of id bit < length bytes.old → count_at bytes.new carries.new.items (place_of id bit) ≤ 14 * length piece.now) }
{
    for cell in piece {
        count_cell(bytes, carries, cell)?;
    }
    Ok(())
}

/// How many pointers from the piece lead to each of so many ids, by their bit.
pub(crate) fn counts_of_piece<const SLOTS: usize>(
    alloc: Global,
    piece: &[Cell<SLOTS>],
    ids: usize,
) -> Result<PairCounts, Memory>
    requires size { IsSlotCount SLOTS }
    requires ids { ids ≤ 16777216 }
    ensures { IfOk result (ArePairCounts (map cell_of piece.now) ids) }
{
    let mut bytes = vec![in alloc; 0u8; 2 * ids]?;
    let mut carries = Vec::new(alloc);
    count_cells(bytes.as_mut_slice(), &mut carries, piece)?;
    Ok(PairCounts { bytes, carries })
}
