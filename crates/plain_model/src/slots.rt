//! The slots of an object.
ghost use Rattle.std.specs.Prelude.{◌≡◌, [], ◌∷◌, ◌++◌, OnOk, OnErr, IfOk, replicate, slice_set, slice_index};

use crate::memory::Memory;
use std::alloc::Global;
use std::marker::Model;

/// The slots of an object, each 0, which names nothing, or an id.
#[derive(Debug, Drop)]
pub struct Slots {
    items: Vec<u32>,
}

impl Model for Slots {
    ghost use Rattle.std.specs.Prelude.{List, ℕ};

    ghost Value = { List ℕ };

    ghost view = { λ a. a.items.items };
}

impl Slots {
    /// No slots. It takes no memory.
    pub fn new(alloc: Global) -> Slots
        ensures { result ≡ [] }
    {
        Slots {
            items: Vec::new(alloc),
        }
    }

    /// So many null slots.
    pub(crate) fn null(alloc: Global, count: u8) -> Result<Slots, Memory>
        ensures { IfOk result (λ s. s ≡ replicate count 0) }
    {
        let items = vec![in alloc; 0u32; count as usize]?;
        Ok(Slots { items })
    }

    /// The same slots.
    pub(crate) fn copy(&self, alloc: Global) -> Result<Slots, Memory>
        ensures { IfOk result (λ s. s ≡ self.now) }
    {
        let items = Vec::from_slice(alloc, self.items.as_slice())?;
        Ok(Slots { items })
    }

    /// What the slot holds, or 0 where there is no such slot.
    pub(crate) fn get(&self, slot: u8) -> u32
        ensures { result ≡ slice_index self.now slot }
    {
        if (slot as usize) < self.items.len() {
            self.items[slot as usize]
        } else {
            0
        }
    }

    /// Sets the slot, where there is one.
    pub(crate) fn set(&mut self, slot: u8, value: u32)
        ensures { self.new ≡ slice_set self.old slot value }
    {
        if (slot as usize) < self.items.len() {
            self.items[slot as usize] = value;
        }
    }

    /// What the slots hold, in their order.
    pub fn items(&self) -> &[u32]
        ensures { result.now ≡ self.now }
    {
        self.items.as_slice()
    }

    /// Appends a slot. Out of memory leaves the slots as they were.
    pub fn push(&mut self, item: u32) -> Result<(), Memory>
        ensures ok { OnOk result (self.new ≡ self.old ++ item ∷ []) }
        ensures err { OnErr result (self.new ≡ self.old) }
    {
        self.items.push(item)?;
        Ok(())
    }
}
