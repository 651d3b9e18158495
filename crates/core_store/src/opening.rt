//! What is made of the cells of a store when it opens.

ghost use Rattle.std.specs.Prelude.{◌≡◌, ◌==◌, ◌&&◌, not, ◌<◌, ◌≤◌, ◌++◌, length, map, IfOk};
ghost use Rattle.plain_model.specs.Graphs.{root};
ghost use Rattle.cell_page.specs.Format.{IsSlotCount, IsPage};
ghost use Rattle.cell_page.specs.Stored.{cell_of};
ghost use Rattle.restart_laws.specs.Graph.{zeros_of};
ghost use Rattle.core_store.specs.Changes.{has_no_strong};
ghost use Rattle.core_store.specs.Opening.{store_of, ArePages, cells_in};

use crate::frame::Frame;
use cell_page::{CELLS_OF_PAGE, Cell, Page, ROOT};
use plain_model::Memory;
use ref_tables::ZeroQueue;
use std::alloc::Global;

/// Appends the cells of a page.
fn append_page<const SLOTS: usize>(
    cells: &mut Vec<Cell<SLOTS>>,
    page: &Page<SLOTS>,
) -> Result<(), Memory>
    ensures { IfOk result (λ _. cells.new.items ≡ cells.old.items ++ page.now) }
{
    cells.extend_from_slice(page.cells())?;
    Ok(())
}

/// The cells of these frames, by their ids.
pub(crate) fn cells<const SLOTS: usize>(
    alloc: Global,
    frames: &[Frame<SLOTS>],
) -> Result<Vec<Cell<SLOTS>>, Memory>
    requires few { length frames.now ≤ 1024 }
    requires pages { ArePages frames.now }
    ensures { IfOk result (λ cells. cells.items ≡ cells_in frames.now) }
{
    let mut cells = Vec::with_capacity(alloc, CELLS_OF_PAGE * frames.len())?;
    for frame in frames {
        append_page(&mut cells, &frame.page)?;
    }
    Ok(cells)
}

/// For each id, at its index, whether no strong pointer leads to its cell.
pub(crate) fn zeros<const SLOTS: usize>(
    alloc: Global,
    cells: &[Cell<SLOTS>],
) -> Result<Vec<bool>, Memory>
    requires { length cells.now ≤ 8192 }
    ensures { IfOk result (λ zeros. zeros.items ≡ map has_no_strong (store_of cells.now)) }
{
    let mut zeros = Vec::with_capacity(alloc, cells.len() + 1)?;
    zeros.push(true)?;
    for cell in cells {
        zeros.push(cell.strong == 0)?;
    }
    Ok(zeros)
}

/// Whether the cell of this id is live and not the root's, and no strong pointer leads to it.
fn is_zero<const SLOTS: usize>(id: u32, cell: &Cell<SLOTS>) -> bool
    ensures { result ≡ (cell.now.live && (not (id == root) && has_no_strong (cell_of cell.now))) }
{
    cell.live && id != ROOT && cell.strong == 0
}

/// The queue of the live objects but the root that no strong pointer leads to, ascending.
pub(crate) fn queue<const SLOTS: usize>(
    alloc: Global,
    cells: &[Cell<SLOTS>],
) -> Result<ZeroQueue, Memory>
    requires { length cells.now ≤ 8192 }
    ensures { IfOk result (λ queue. queue ≡ record { ids = zeros_of (store_of cells.now); limit = length cells.now }) }
{
    let mut queue = ZeroQueue::new(alloc, cells.len() as u32)?;
    for (place, cell) in cells.iter().enumerate() {
        let id = place as u32 + 1;
        if is_zero(id, cell) {
            queue.push(id);
        }
    }
    Ok(queue)
}
