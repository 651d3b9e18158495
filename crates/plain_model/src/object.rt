//! Objects.
ghost use Rattle.std.specs.Prelude.{◌≡◌, IfOk, if◌then◌else◌, ◌==◌};
ghost use Rattle.plain_model.specs.Graphs.{set_place, FitsPlace};

use crate::memory::Memory;
use crate::slots::Slots;
use crate::write::Place;
use std::alloc::Global;

/// An object: its id, which is at least 1, its slots and its payload.
#[derive(Debug, Drop)]
pub struct Object {
    pub id: u32,
    pub slots: Slots,
    pub payload: u64,
}

impl Object {
    /// Sets the place, if this is the object with the id.
    pub(crate) fn set(&mut self, id: u32, place: Place, value: u64)
        requires { FitsPlace place value }
        ensures { self.new ≡ (if self.old.id == id then set_place place value self.old else self.old) }
    {
        if self.id != id {
            return;
        }
        match place {
            Place::Slot(slot) => self.slots.set(slot, value as u32),
            Place::Payload => self.payload = value,
            Place::Whole => {}
        }
    }

    /// An object with the same contents.
    pub(crate) fn copy(&self, alloc: Global) -> Result<Object, Memory>
        ensures { IfOk result (λ o. o ≡ self.now) }
    {
        let slots = self.slots.copy(alloc)?;
        Ok(Object {
            id: self.id,
            slots,
            payload: self.payload,
        })
    }
}
