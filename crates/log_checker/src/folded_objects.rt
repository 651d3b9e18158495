//! The objects of a store, each in the cell of its id.
ghost use Rattle.std.specs.Prelude.{◌≡◌, ◌<◌, ◌≤◌, ◌^◌, ◌++◌, ℕ, All, IfOk, OnOk, OnErr, length, map, slice_set};
ghost use Rattle.std.specs.List.{AllByRecursion};
ghost use Rattle.plain_model.specs.Graphs.{after_write, applied};
ghost use Rattle.cell_model.specs.Cells.{cell_at};
ghost use Rattle.cell_model.specs.Graph.{graph_of};
ghost use Rattle.cell_page.specs.Format.{IsSlotCount};
ghost use Rattle.cell_page.specs.Stored.{cell_of};
ghost use Rattle.log_checker.specs.FoldedObjects.{IsObjectPlace, IsInside, written, objects_in};

use cell_page::Cell;
use log_replay::Replay;
use plain_model::{Graph, Memory, Object, Place, Slots, Write};
use std::alloc::Global;
use std::marker::Model;

/// The objects of a store, each in the cell of its id; at 0, which is no id, stands a free one. Only slots and payloads of live cells
/// count.
#[derive(Drop)]
pub(crate) struct Objects<const SLOTS: usize> {
    cells: Vec<Cell<SLOTS>>,
}

impl<const SLOTS: usize> Model for Objects<SLOTS> {
    ghost use Rattle.std.specs.Prelude.{List, map};
    ghost use Rattle.cell_model.specs.Cells.{Cell as StoredCell};
    ghost use Rattle.cell_page.specs.Stored.{cell_of};

    ghost Value = { List StoredCell };

    ghost view = { λ o. map cell_of o.cells.items };
}

/// Writes a value to a place of the object that a cell holds. A free cell takes a new object alone.
fn write_cell<const SLOTS: usize>(cell: &mut Cell<SLOTS>, place: Place, value: u64)
    requires slots { IsSlotCount SLOTS }
    requires place { IsObjectPlace SLOTS place value }
    ensures { cell_of cell.new ≡ written SLOTS place value (cell_of cell.old) }
{
    match place {
        Place::Whole => *cell = Cell::new_object(cell.id),
        Place::Slot(slot) => {
            if cell.live {
                cell.set_pointer(slot, value as u32, false);
            }
        }
        Place::Payload => {
            if cell.live {
                cell.payload = value;
            }
        }
    }
}

/// These slots.
fn slots_from(alloc: Global, targets: &[u32]) -> Result<Slots, Memory>
    ensures { IfOk result (λ slots. slots ≡ targets.now) }
{
    let mut slots = Slots::new(alloc);
    for target in targets {
        slots.push(*target)?;
    }
    Ok(slots)
}

/// The slots of a cell.
fn slots_of<const SLOTS: usize>(alloc: Global, cell: &Cell<SLOTS>) -> Result<Slots, Memory>
    ensures { IfOk result (λ slots. slots ≡ map (λ p. p.target) (cell_of cell.now).pointers) }
{
    slots_from(alloc, &cell.slots)
}

/// Appends the object of a cell, where that is live.
fn push_object<const SLOTS: usize>(
    alloc: Global,
    graph: &mut Graph,
    id: u32,
    cell: &Cell<SLOTS>,
) -> Result<(), Memory>
    requires { All (λ o. o.id < id) graph.old }
    ensures { OnOk result (graph.new ≡ graph.old ++ objects_in id (cell_of cell.now)) }
{
    if !cell.live {
        return Ok(());
    }
    let slots = slots_of(alloc, cell)?;
    graph.push(Object {
        id,
        slots,
        payload: cell.payload,
    })
}

impl<const SLOTS: usize> Objects<SLOTS> {
    /// The objects that a replay has.
    pub(crate) fn of(alloc: Global, replay: &Replay<SLOTS>) -> Result<Objects<SLOTS>, Memory>
        requires { IsSlotCount SLOTS }
        ensures { IfOk result (λ o. o ≡ replay.now.cells) }
    {
        let mut cells = Vec::new(alloc);
        cells.push(Cell::free(0))?;
        for i in 0..replay.last_id() {
            cells.push(*replay.cell(i + 1))?;
        }
        Ok(Objects { cells })
    }

    /// Writes a value to a place of an object. It takes no memory.
    pub(crate) fn write(&mut self, write: &Write)
        requires slots { IsSlotCount SLOTS }
        requires inside { IsInside SLOTS (length self.old) write.now }
        ensures cell { self.new ≡ slice_set self.old write.now.id (written SLOTS write.now.place write.now.value (cell_at self.old write.now.id)) }
        ensures graph { graph_of self.new ≡ after_write SLOTS (graph_of self.old) write.now }
        ensures sized { length self.new ≡ length self.old }
    {
        write_cell(&mut self.cells[write.id as usize], write.place, write.value);
    }

    /// Does writes, one after another. It takes no memory.
    pub(crate) fn write_all(&mut self, writes: &[Write])
        requires slots { IsSlotCount SLOTS }
        requires inside { AllByRecursion (IsInside SLOTS (length self.old)) writes.now }
        ensures graph { graph_of self.new ≡ applied SLOTS (graph_of self.old) writes.now }
        ensures sized { length self.new ≡ length self.old }
    {
        for write in writes {
            self.write(write);
        }
    }

    /// The graph of the objects.
    pub(crate) fn graph(&self, alloc: Global) -> Result<Graph, Memory>
        requires slots { IsSlotCount SLOTS }
        requires few { length self.now ≤ 2 ^ 32 }
        ensures { IfOk result (λ g. g ≡ graph_of self.now) }
    {
        let mut graph = Graph::new(alloc);
        for id in 0..self.cells.len() {
            push_object(alloc, &mut graph, id as u32, &self.cells[id])?;
        }
        Ok(graph)
    }
}

/// The graph of the objects that a replay has. Out of memory is its only error.
pub(crate) fn graph_of_replay<const SLOTS: usize>(
    alloc: Global,
    replay: &Replay<SLOTS>,
) -> Result<Graph, Memory>
    requires { IsSlotCount SLOTS }
    ensures { IfOk result (λ g. g ≡ graph_of replay.now.cells) }
{
    let _last = replay.last_id();
    let objects = Objects::of(alloc, replay)?;
    objects.graph(alloc)
}
