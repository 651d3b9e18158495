//! Cells that are made up, and frames that keep their counts.
ghost use Rattle.std.specs.Prelude.{◌≡◌, ◌+◌, ◌<◌, length, IfOk};
ghost use Rattle.cell_page.specs.Format.{IsPage};
ghost use Rattle.auditor.specs.Recount.{ArePages};

use crate::order::Graph;
use anyhow::{Result, anyhow};
use cell_page::{CELLS_OF_PAGE, Cell, Page};
use core_store::Frame;
use std::alloc::Global;

/// How many slots a cell has.
pub(crate) const SLOTS: usize = 14;

/// How many pages the largest store has.
const PAGES: u16 = 1024;

/// How many ids it has.
const IDS: u32 = 8192;

/// How many bytes a cell takes in its page.
const CELL_LEN: usize = 128;

/// A number that looks as if it were drawn, the same for the same number.
fn drawn(number: u64) -> u64 {
    let mixed = number.wrapping_mul(0x9E37_79B9_7F4A_7C15);
    let mixed = (mixed ^ mixed >> 30).wrapping_mul(0xBF58_476D_1CE4_E5B9);
    let mixed = (mixed ^ mixed >> 27).wrapping_mul(0x94D0_49BB_1331_11EB);
    mixed ^ mixed >> 31
}

/// An id of so many, drawn for a slot, and a pointer bit.
fn drawn_pointer(ids: u32, id: u32, slot: u8) -> (u32, bool) {
    let number = drawn(u64::from(id).wrapping_mul(16).wrapping_add(u64::from(slot)));
    let below = (number % u64::from(ids.max(1))) as u32;
    (below.saturating_add(1), number >> 63 == 1)
}

/// Which of so many ids a slot names, 0 for none, and its pointer bit.
fn pointer(graph: Graph, ids: u32, id: u32, slot: u8) -> (u32, bool) {
    match graph {
        Graph::Random => drawn_pointer(ids, id, slot),
        Graph::Chain => {
            if slot == 0 && id < ids {
                (id.saturating_add(1), false)
            } else {
                (0, false)
            }
        }
    }
}

/// The live cell of an id, whose counts are 0.
fn cell_of(graph: Graph, ids: u32, id: u32) -> Cell<SLOTS> {
    let mut cell = Cell::new_object(id);
    'slots: for slot in 0..14u8 {
        let (target, bit) = pointer(graph, ids, id, slot);
        cell.set_pointer(slot, target, bit);
    }
    cell
}

/// The cells of so many ids, all live; at index 0, which is no id, a free one. Their counts are 0.
pub(crate) fn cells_alone(alloc: Global, graph: Graph, ids: u32) -> Result<Vec<Cell<SLOTS>>>
    ensures { IfOk result (λ cells. length cells.items ≡ ids + 1) }
{
    let mut cells = Vec::new(alloc);
    cells.push(Cell::free(0))?;
    for i in 0..ids {
        cells.push(cell_of(graph, ids, i + 1))?;
    }
    Ok(cells)
}

/// Counts a pointer with this bit at the cell that it names.
fn count_one(cells: &mut [Cell<SLOTS>], target: usize, bit: bool)
    ensures { length cells.new ≡ length cells.old }
{
    if target < cells.len() {
        if bit {
            cells[target].weak = cells[target].weak.saturating_add(1);
        } else {
            cells[target].strong = cells[target].strong.saturating_add(1);
        }
    }
}

/// Counts the pointers of the cell of an id at what they name.
fn count_from(cells: &mut [Cell<SLOTS>], id: usize)
    requires { id < length cells.old }
    ensures { length cells.new ≡ length cells.old }
{
    let from = cells[id];
    for slot in 0..14u8 {
        let target = from.slots[slot as usize] as usize;
        if target > 0 {
            count_one(cells, target, from.pointer_bit(slot));
        }
    }
}

/// Gives each cell its counts. The root has one strong pointer of its own.
fn count_all(cells: &mut [Cell<SLOTS>])
    ensures { length cells.new ≡ length cells.old }
{
    count_one(cells, 1, false);
    for id in 0..cells.len() {
        count_from(cells, id);
    }
}

/// Spells a live cell whose target bit is 0 over zero bytes.
fn spell(bytes: &mut [u8], cell: &Cell<SLOTS>)
    requires { length bytes.old ≡ 128 }
{
    bytes[0] = 1;
    bytes[2..4].copy_from_slice(&cell.bits.to_be_bytes());
    bytes[4..8].copy_from_slice(&cell.id.to_be_bytes());
    bytes[8..12].copy_from_slice(&cell.strong.to_be_bytes());
    bytes[12..16].copy_from_slice(&cell.weak.to_be_bytes());
    for slot in 0..SLOTS {
        let at = 24 + 4 * slot;
        bytes[at..at + 4].copy_from_slice(&cell.slots[slot].to_be_bytes());
    }
}

/// Spells the cells of the page of this number over zero bytes.
fn spell_page(bytes: &mut [u8], cells: &[Cell<SLOTS>], number: u16)
    requires { length bytes.old ≡ 1024 }
    ensures { length bytes.new ≡ length bytes.old }
{
    let first = CELLS_OF_PAGE * number as usize + 1;
    for place in 0..CELLS_OF_PAGE {
        if let Some(cell) = cells.get(first + place) {
            let start = CELL_LEN * place;
            spell(&mut bytes[start..start + CELL_LEN], cell);
        }
    }
}

/// The frame of this number with its cells.
fn frame_of(cells: &[Cell<SLOTS>], number: u16) -> Result<Frame<SLOTS>>
    ensures { IfOk result (λ frame. IsPage number frame.page) }
{
    let mut bytes = [0u8; 1024];
    spell_page(&mut bytes, cells, number);
    match Page::decode(number, &bytes) {
        Ok(page) => Ok(Frame { page }),
        Err(_) => Err(anyhow!("the page breaks the format")),
    }
}

/// The frames of these cells.
fn frames_of(alloc: Global, cells: &[Cell<SLOTS>]) -> Result<Vec<Frame<SLOTS>>>
    ensures pages { IfOk result (λ frames. ArePages frames.items) }
    ensures len { IfOk result (λ frames. length frames.items ≡ 1024) }
{
    let mut frames = Vec::new(alloc);
    for number in 0..PAGES {
        frames.push(frame_of(cells, number)?)?;
    }
    Ok(frames)
}

/// The cells of a store, and their frames.
#[derive(Drop)]
pub(crate) struct Made {
    /// The cells; at index 0, which is no id, a free one.
    pub(crate) cells: Vec<Cell<SLOTS>>,
    /// The frames, which keep the counts of the cells.
    pub(crate) frames: Vec<Frame<SLOTS>>,
}

/// The largest store, all of whose ids are live.
pub(crate) fn store_made(alloc: Global, graph: Graph) -> Result<Made>
    ensures pages { IfOk result (λ made. ArePages made.frames.items) }
    ensures len { IfOk result (λ made. length made.frames.items ≡ 1024) }
    ensures ids { IfOk result (λ made. length made.cells.items ≡ 8193) }
{
    let mut cells = cells_alone(alloc, graph, IDS)?;
    count_all(cells.as_mut_slice());
    let frames = frames_of(alloc, cells.as_slice())?;
    Ok(Made { cells, frames })
}
