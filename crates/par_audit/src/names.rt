//! What the objects of a level name, by pieces of the level.
ghost use Rattle.std.specs.Prelude.{◌≡◌, ◌<◌, ◌≤◌, ◌+◌, ◌/◌, ◌||◌, ◌*◌, ℕ, length, slice_index, false, IfOk};
ghost use Rattle.std.specs.List.{All, AllZip, list_any};
ghost use Rattle.cell_page.specs.Format.{IsSlotCount};
ghost use Rattle.rayon.specs.Numbers.{nat_range};
ghost use Rattle.par_audit.specs.Pieces.{piece_at};
ghost use Rattle.par_audit.specs.Marks.{AreNames, IsNameTable, has_id, is_in, is_marked, slots_at};

use crate::marks::{add_marks, pack, words_for};
use crate::pieces::piece_at;
use cell_page::Cell;
use plain_model::Memory;
use rayon::prelude::*;
use std::alloc::Global;
use std::thread::Threads;

/// Notes the ids that these slots name.
#[inline(always)]
fn name_slots(table: &mut [bool], slots: &[u32])
    ensures len { length table.new ≡ length table.old }
    ensures each { (id : ℕ) → id < length table.old → has_id table.new id ≡ (has_id table.old id || is_in slots.now id) }
{
    for target in slots {
        let at = *target as usize;
        if at < table.len() {
            table[at] = true;
        }
    }
}

/// Notes the ids that the id's cell names.
#[inline(always)]
fn name_cell<const SLOTS: usize>(table: &mut [bool], cells: &[Cell<SLOTS>], id: u32)
    ensures len { length table.new ≡ length table.old }
    ensures each { (x : ℕ) → x < length table.old → has_id table.new x ≡ (has_id table.old x || is_in (slots_at cells.now id) x) }
{
    if let Some(cell) = cells.get(id as usize) {
        name_slots(table, &cell.slots);
    }
}

/// Notes the ids that the objects of a piece of a level name.
fn name_all<const SLOTS: usize>(table: &mut [bool], cells: &[Cell<SLOTS>], piece: &[u32])
    requires { (id : ℕ) → has_id table.old id ≡ false }
    ensures { IsNameTable cells.now piece.now (length table.old) table.new }
{
    for id in piece {
        name_cell(table, cells, *id);
    }
}

/// The table of which of so many ids the objects of a piece of a level name. To note an id in a table takes less time than to set
/// a bit.
fn names_of_piece<const SLOTS: usize>(
    alloc: Global,
    cells: &[Cell<SLOTS>],
    piece: &[u32],
    ids: usize,
) -> Result<Vec<bool>, Memory>
    ensures { IfOk result (λ table. IsNameTable cells.now piece.now ids table.items) }
{
    let mut table = vec![in alloc; false; ids]?;
    name_all(table.as_mut_slice(), cells, piece);
    Ok(table)
}

/// So many words with the marks of the ids that the table has.
fn words_of_table(alloc: Global, table: &[bool], count: usize) -> Result<Vec<u64>, Memory>
    requires few { count ≤ 262145 }
    requires wide { length table.now ≤ 64 * count }
    ensures len { IfOk result (λ words. length words.items ≡ count) }
    ensures each { IfOk result (λ words. (id : ℕ) → is_marked words.items id ≡ has_id table.now id) }
{
    let mut words = vec![in alloc; 0u64; count]?;
    pack(words.as_mut_slice(), table);
    Ok(words)
}

/// The words of what the objects of a piece of a level name. They are an eighth of the table, and soon read by another thread.
fn words_of_piece<const SLOTS: usize>(
    alloc: Global,
    cells: &[Cell<SLOTS>],
    piece: &[u32],
) -> Result<Vec<u64>, Memory>
    requires slots { IsSlotCount SLOTS }
    requires few { length cells.now ≤ 16777216 }
    ensures { IfOk result (λ words. AreNames cells.now piece.now (length cells.now / 64 + 1) words.items) }
{
    let count = words_for(cells.len());
    let table = names_of_piece(alloc, cells, piece, 64 * count)?;
    words_of_table(alloc, table.as_slice(), count)
}

/// The words for each piece of a level, in the order of the pieces, from several threads.
fn tables_of_pieces<const SLOTS: usize>(
    rt: &(impl Threads + Sync),
    alloc: Global,
    cells: &[Cell<SLOTS>],
    level: &[u32],
    pieces: usize,
    size: usize,
) -> Result<Vec<Vec<u64>>, Memory>
    requires slots { IsSlotCount SLOTS }
    requires ids { length cells.now ≤ 16777216 }
    requires fits { pieces * size < 18446744073709551616 }
    ensures { IfOk result (λ tables. AllZip (λ number words. AreNames cells.now (piece_at size level.now number) (length cells.now / 64 + 1) words.items) (nat_range 0 pieces) tables.items) }
{
    (0..pieces)
        .into_par_iter()
        .with_min_len(1)
        .map(
            |number: usize| -> Result<Vec<u64>, Memory>
                requires { IsSlotCount SLOTS × (length cells.now ≤ 16777216) × (number * size < 18446744073709551616) }
                ensures { IfOk result (λ words. AreNames cells.entry.now (piece_at size level.entry.now number) (length cells.entry.now / 64 + 1) words.items) }
            { words_of_piece(alloc, cells, piece_at(level, number, size)) },
        )
        .collect::<Result<Vec<Vec<u64>>, Memory>>(rt, alloc)?
}

/// Marks what any of the tables of words marks.
#[tactic(auto, using(crate::proofs::MarkLaws::mark_blank))]
fn add_all_marks(sums: &mut [u64], tables: &[Vec<u64>])
    requires wide { All (λ t. length t.items ≡ length sums.old) tables.now }
    requires none { (place : ℕ) → slice_index sums.old place ≡ 0 }
    ensures len { length sums.new ≡ length sums.old }
    ensures each { (id : ℕ) → is_marked sums.new id ≡ list_any (λ t. is_marked t.items id) tables.now }
{
    for table in tables {
        add_marks(sums, table.as_slice());
    }
}

/// The marks of all tables of so many words.
fn joined(alloc: Global, tables: &[Vec<u64>], words: usize) -> Result<Vec<u64>, Memory>
    requires wide { All (λ t. length t.items ≡ words) tables.now }
    ensures len { IfOk result (λ sums. length sums.items ≡ words) }
    ensures each { IfOk result (λ sums. (id : ℕ) → is_marked sums.items id ≡ list_any (λ t. is_marked t.items id) tables.now) }
{
    let mut sums = vec![in alloc; 0u64; words]?;
    add_all_marks(sums.as_mut_slice(), tables);
    Ok(sums)
}

/// The words of what the objects of a level name, found by so many pieces of the level.
pub(crate) fn names_by_pieces<const SLOTS: usize>(
    rt: &(impl Threads + Sync),
    alloc: Global,
    cells: &[Cell<SLOTS>],
    level: &[u32],
    pieces: usize,
) -> Result<Vec<u64>, Memory>
    requires slots { IsSlotCount SLOTS }
    requires ids { length cells.now ≤ 16777216 }
    requires some { 0 < pieces }
    requires few { pieces ≤ 1024 }
    requires fits { length level.now ≤ 16777216 }
    ensures { IfOk result (λ words. AreNames cells.now level.now (length cells.now / 64 + 1) words.items) }
{
    let size = level.len().div_ceil(pieces);
    let tables = tables_of_pieces(rt, alloc, cells, level, pieces, size)?;
    joined(alloc, tables.as_slice(), words_for(cells.len()))
}
