//! The count of all pointers, by pieces of the cells.
ghost use Rattle.std.specs.Prelude.{◌≡◌, ◌<◌, ◌≤◌, ◌+◌, ◌*◌, ◌==◌, ℕ, true, false, cond, length, map, slice_index, sum_by, count_by, IfOk};
ghost use Rattle.std.specs.List.{All, AllZip};
ghost use Rattle.cell_page.specs.Format.{IsSlotCount};
ghost use Rattle.cell_page.specs.Stored.{cell_of};
ghost use Rattle.rayon.specs.Numbers.{nat_range};
ghost use Rattle.par_audit.specs.Pieces.{piece_at};
ghost use Rattle.par_audit.specs.Tables.{ArePairCounts, AreTablesOf, IsTableOf, count_in, place_of};

use crate::pairs::{PairCounts, counts_of_piece, place_of};
use crate::pieces::piece_at;
use cell_page::Cell;
use plain_model::Memory;
use rayon::prelude::*;
use std::alloc::Global;
use std::thread::{Threads, join};

/// How few ids are worth a thread of their own where counts are added.
const LEAST_SUMS: usize = 65_536;

/// How many pointers lead to each id, by their bit. A table has a count for each id, and one for 0, which is no id.
#[derive(Drop)]
pub struct Tables {
    /// The pointers whose bit is 0.
    pub zeros: Vec<u32>,
    /// The pointers whose bit is 1.
    pub ones: Vec<u32>,
}

/// The counts of each piece of the cells, in the order of the pieces, from several threads.
fn counts_of_pieces<const SLOTS: usize>(
    rt: &(impl Threads + Sync),
    alloc: Global,
    cells: &[Cell<SLOTS>],
    pieces: usize,
    size: usize,
) -> Result<Vec<PairCounts>, Memory>
    requires slots { IsSlotCount SLOTS }
    requires few { length cells.now ≤ 16777216 }
    requires fits { pieces * size < 18446744073709551616 }
    ensures { IfOk result (λ tables. AllZip (λ number counts. ArePairCounts (map cell_of (piece_at size cells.now number)) (length cells.now) counts) (nat_range 0 pieces) tables.items) }
{
    (0..pieces)
        .into_par_iter()
        .with_min_len(1)
        .map(
            |number: usize| -> Result<PairCounts, Memory>
                requires { IsSlotCount SLOTS × (length cells.now ≤ 16777216) × (number * size < 18446744073709551616) }
                ensures { IfOk result (λ counts. ArePairCounts (map cell_of (piece_at size cells.entry.now number)) (length cells.entry.now) counts) }
            { counts_of_piece(alloc, piece_at(cells, number, size), cells.len()) },
        )
        .collect::<Result<Vec<PairCounts>, Memory>>(rt, alloc)?
}

/// Adds the bytes of the counts of the pointers with this bit to the sums.
fn add_bytes(sums: &mut [u32], bytes: &[u8], bit: bool)
    requires few { length sums.old ≤ 16777216 }
    requires len { length bytes.now ≡ 2 * length sums.old }
    requires room { (id : ℕ) → id < length sums.old → slice_index sums.old id + slice_index bytes.now (place_of id bit) ≤ 4000000000 }
    ensures len { length sums.new ≡ length sums.old }
    ensures each { (id : ℕ) → id < length sums.old → slice_index sums.new id ≡ slice_index sums.old id + slice_index bytes.now (place_of id bit) }
{
    for i in 0..sums.len() {
        sums[i] += bytes[place_of(i, bit)] as u32;
    }
}

/// Adds 256 to the sum of the id whose count with this bit has the place, if there is one.
fn add_carry(sums: &mut [u32], place: u32, bit: bool)
    requires few { length sums.old ≤ 16777216 }
    requires room { (id : ℕ) → id < length sums.old → slice_index sums.old id + 256 * cond (place == place_of id bit) 1 0 ≤ 4000000000 }
    ensures len { length sums.new ≡ length sums.old }
    ensures each { (id : ℕ) → id < length sums.old → slice_index sums.new id ≡ slice_index sums.old id + 256 * cond (place == place_of id bit) 1 0 }
{
    let id = (place / 2) as usize;
    if id < sums.len() && place_of(id, bit) == place as usize {
        sums[id] += 256;
    }
}

/// Adds what was carried over of the counts of the pointers with this bit to the sums.
fn add_carries(sums: &mut [u32], carries: &[u32], bit: bool)
    requires few { length sums.old ≤ 16777216 }
    requires room { (id : ℕ) → id < length sums.old → slice_index sums.old id + 256 * count_by (λ p. p == place_of id bit) carries.now ≤ 4000000000 }
    ensures len { length sums.new ≡ length sums.old }
    ensures each { (id : ℕ) → id < length sums.old → slice_index sums.new id ≡ slice_index sums.old id + 256 * count_by (λ p. p == place_of id bit) carries.now }
{
    for place in carries {
        add_carry(sums, *place, bit);
    }
}

/// Adds the counts of the pointers with this bit to the sums.
fn add_counts(sums: &mut [u32], counts: &PairCounts, bit: bool)
    requires few { length sums.old ≤ 16777216 }
    requires len { length counts.now.bytes.items ≡ 2 * length sums.old }
    requires room { (id : ℕ) → id < length sums.old → slice_index sums.old id + count_in counts.now id bit ≤ 4000000000 }
    ensures len { length sums.new ≡ length sums.old }
    ensures each { (id : ℕ) → id < length sums.old → slice_index sums.new id ≡ slice_index sums.old id + count_in counts.now id bit }
{
    add_bytes(sums, counts.bytes.as_slice(), bit);
    add_carries(sums, counts.carries.as_slice(), bit);
}

/// Adds the counts of the pointers with this bit in all tables to sums that are 0.
fn add_tables(sums: &mut [u32], tables: &[PairCounts], bit: bool)
    requires few { length sums.old ≤ 16777216 }
    requires wide { All (λ t. length t.bytes.items ≡ 2 * length sums.old) tables.now }
    requires none { (id : ℕ) → slice_index sums.old id ≡ 0 }
    requires room { (id : ℕ) → id < length sums.old → sum_by (λ t. count_in t id bit) tables.now ≤ 4000000000 }
    ensures len { length sums.new ≡ length sums.old }
    ensures each { (id : ℕ) → id < length sums.old → slice_index sums.new id ≡ sum_by (λ t. count_in t id bit) tables.now }
{
    for table in tables {
        add_counts(sums, table, bit);
    }
}

/// The sums of the counts of the pointers with this bit in all tables.
fn sums_of(alloc: Global, tables: &[PairCounts], ids: usize, bit: bool) -> Result<Vec<u32>, Memory>
    requires few { ids ≤ 16777216 }
    requires wide { All (λ t. length t.bytes.items ≡ 2 * ids) tables.now }
    requires room { (id : ℕ) → id < ids → sum_by (λ t. count_in t id bit) tables.now ≤ 4000000000 }
    ensures len { IfOk result (λ sums. length sums.items ≡ ids) }
    ensures each { IfOk result (λ sums. (id : ℕ) → id < ids → slice_index sums.items id ≡ sum_by (λ t. count_in t id bit) tables.now) }
{
    let mut sums = vec![in alloc; 0u32; ids]?;
    add_tables(sums.as_mut_slice(), tables, bit);
    Ok(sums)
}

/// The sums of these tables, which are those of pieces of the cells.
fn sums_of_pieces<const SLOTS: usize>(
    alloc: Global,
    cells: &[Cell<SLOTS>],
    tables: &[PairCounts],
    pieces: usize,
    size: usize,
    bit: bool,
) -> Result<Vec<u32>, Memory>
    requires few { length cells.now ≤ 16777216 }
    requires whole { length cells.now ≤ pieces * size }
    requires tables { AllZip (λ number counts. ArePairCounts (map cell_of (piece_at size cells.now number)) (length cells.now) counts) (nat_range 0 pieces) tables.now }
    ensures { IfOk result (λ sums. IsTableOf (map cell_of cells.now) bit (length cells.now) sums.items) }
{
    sums_of(alloc, tables, cells.len(), bit)
}

/// The sums of these tables by both bits, each in a thread of its own.
fn both_sums<const SLOTS: usize>(
    rt: &(impl Threads + Sync),
    alloc: Global,
    cells: &[Cell<SLOTS>],
    tables: &[PairCounts],
    pieces: usize,
    size: usize,
) -> Result<Tables, Memory>
    requires few { length cells.now ≤ 16777216 }
    requires whole { length cells.now ≤ pieces * size }
    requires tables { AllZip (λ number counts. ArePairCounts (map cell_of (piece_at size cells.now number)) (length cells.now) counts) (nat_range 0 pieces) tables.now }
    ensures { IfOk result (AreTablesOf (map cell_of cells.now) (length cells.now)) }
{
    let adding_zeros = move || -> Result<Vec<u32>, Memory>
        requires { (length cells.now ≤ 16777216) × (length cells.now ≤ pieces * size) × AllZip (λ number counts. ArePairCounts (map cell_of (piece_at size cells.now number)) (length cells.now) counts) (nat_range 0 pieces) tables.now }
        ensures { IfOk result (λ sums. IsTableOf (map cell_of cells.entry.now) false (length cells.entry.now) sums.items) }
    { sums_of_pieces(alloc, cells, tables, pieces, size, false) };
    let adding_ones = move || -> Result<Vec<u32>, Memory>
        requires { (length cells.now ≤ 16777216) × (length cells.now ≤ pieces * size) × AllZip (λ number counts. ArePairCounts (map cell_of (piece_at size cells.now number)) (length cells.now) counts) (nat_range 0 pieces) tables.now }
        ensures { IfOk result (λ sums. IsTableOf (map cell_of cells.entry.now) true (length cells.entry.now) sums.items) }
    { sums_of_pieces(alloc, cells, tables, pieces, size, true) };
    let (zeros, ones) = join(rt, adding_zeros, adding_ones);
    Ok(Tables {
        zeros: zeros?,
        ones: ones?,
    })
}

/// For each id how many pointers of live cells lead to it, counted by so many pieces of the cells, in as many threads.
/// `Memory` is its only error.
pub fn count_by_pieces<const SLOTS: usize>(
    rt: &(impl Threads + Sync),
    alloc: Global,
    cells: &[Cell<SLOTS>],
    pieces: usize,
) -> Result<Tables, Memory>
    requires slots { IsSlotCount SLOTS }
    requires few { length cells.now ≤ 16777216 }
    requires some { 0 < pieces }
    requires fits { pieces ≤ 1024 }
    ensures { IfOk result (AreTablesOf (map cell_of cells.now) (length cells.now)) }
{
    let size = cells.len().div_ceil(pieces);
    let tables = counts_of_pieces(rt, alloc, cells, pieces, size)?;
    if pieces > 1 && cells.len() >= LEAST_SUMS {
        return both_sums(rt, alloc, cells, tables.as_slice(), pieces, size);
    }
    let zeros = sums_of_pieces(alloc, cells, tables.as_slice(), pieces, size, false)?;
    let ones = sums_of_pieces(alloc, cells, tables.as_slice(), pieces, size, true)?;
    Ok(Tables { zeros, ones })
}
