//! What a handle does at its store.
ghost use Rattle.std.specs.Prelude.{◌≡◌, ◌↔◌, true, IfOk, IfErr, OnOk};
ghost use Rattle.plain_model.specs.declared.write.Place.TheVariants.{Slot, Payload};
ghost use Rattle.plain_model.specs.Graphs.{has_object};

use crate::error::StoreError;
use crate::reference::Held;
use crate::store::Store;
use crate::{CLIENT, SLOTS, asking};
use disk_model::Disk;
use plain_model::Call;

impl<D: Disk> Store<D> {
    ghost use Rattle.object_store.specs.Handles.{Holds, graph_of, is_live};
    ghost use Rattle.object_store.specs.Steps.{id_of, register_of, Keeps, Gets, Shows, Sets, MakesObject, IsObjectError, IsGetError, IsSetError, IsMakeError, Forgets};

    /// Whether a transaction is open, and the disk failed no call.
    pub(crate) fn is_open(&self) -> bool
        ensures { result ≡ is_live self.now }
    {
        let logged = self.framed.logged();
        logged.failed().is_none() && logged.journal().active(CLIENT)
    }

    /// The root, which register 0 holds.
    pub(crate) fn root(&self) -> Held
        ensures root { result ≡ record { id = 1; register = 0 } }
        ensures holds { is_live self.now ≡ true → Holds self.now result }
    {
        let _ = &self.framed;
        Held { id: 1, register: 0 }
    }

    /// Whether the transaction holds the reference. Then its object is in the graph.
    pub(crate) fn holds(&self, object: Held) -> bool
        requires live { is_live self.now ≡ true }
        ensures holds { (result ≡ true) ↔ Holds self.now object }
        ensures there { result ≡ true → has_object (graph_of self.now) object.id ≡ true }
    {
        self.table.holds(object)
    }

    /// Reads a slot of the object.
    pub(crate) fn get(&mut self, object: Held, slot: u8) -> Result<Option<Held>, StoreError>
        requires live { is_live self.old ≡ true }
        ensures live { is_live self.new ≡ true }
        ensures gets { IfOk result (λ found. Gets object slot found self.old self.new) }
        ensures refused { IfErr result (λ why. IsGetError object slot self.old why) }
        ensures keeps { IfErr result (λ _. Keeps self.old self.new) }
    {
        if !self.table.holds(object) {
            return Err(StoreError::NotHeld);
        }
        if slot as usize >= SLOTS {
            return Err(StoreError::NoSuchSlot);
        }
        let Some(into) = self.table.free() else {
            return Err(StoreError::TooManyReferences);
        };
        let id = match asking::read(&mut self.framed, object, slot, into) {
            Ok(id) => id,
            Err(why) => return Err(why),
        };
        if id == 0 {
            return Ok(None);
        }
        Ok(Some(self.table.keep(into, id)))
    }

    /// The payload of the object.
    pub(crate) fn payload(&mut self, object: Held) -> Result<u64, StoreError>
        requires live { is_live self.old ≡ true }
        ensures live { is_live self.new ≡ true }
        ensures shows { IfOk result (λ payload. Shows object payload self.old self.new) }
        ensures refused { IfErr result (λ why. IsObjectError object (Call.GetPay object.register) self.old why) }
        ensures keeps { IfErr result (λ _. Keeps self.old self.new) }
    {
        if !self.table.holds(object) {
            return Err(StoreError::NotHeld);
        }
        asking::get_pay(&mut self.framed, object)
    }

    /// Sets the payload of the object.
    pub(crate) fn set_payload(&mut self, object: Held, value: u64) -> Result<(), StoreError>
        requires live { is_live self.old ≡ true }
        ensures live { is_live self.new ≡ true }
        ensures sets { OnOk result (Sets object Payload value (Call.SetPay object.register value) self.old self.new) }
        ensures refused { IfErr result (λ why. IsObjectError object (Call.SetPay object.register value) self.old why) }
        ensures keeps { IfErr result (λ _. Keeps self.old self.new) }
    {
        if !self.table.holds(object) {
            return Err(StoreError::NotHeld);
        }
        asking::set_pay(&mut self.framed, object, value)
    }

    /// Sets a slot of the object.
    pub(crate) fn set(&mut self, object: Held, slot: u8, to: Option<Held>) -> Result<(), StoreError>
        requires live { is_live self.old ≡ true }
        ensures live { is_live self.new ≡ true }
        ensures sets { OnOk result (Sets object (Slot slot) (id_of to) (Call.Store object.register slot (register_of to)) self.old self.new) }
        ensures refused { IfErr result (λ why. IsSetError object slot to self.old why) }
        ensures keeps { IfErr result (λ _. Keeps self.old self.new) }
    {
        if !self.table.holds(object) {
            return Err(StoreError::NotHeld);
        }
        if !self.table.holds_any(to) {
            return Err(StoreError::NotHeld);
        }
        if slot as usize >= SLOTS {
            return Err(StoreError::NoSuchSlot);
        }
        asking::store(&mut self.framed, object, slot, to)
    }

    /// Makes an object.
    pub(crate) fn make(&mut self) -> Result<Held, StoreError>
        requires live { is_live self.old ≡ true }
        ensures live { is_live self.new ≡ true }
        ensures makes { IfOk result (λ made. MakesObject made self.old self.new) }
        ensures refused { IfErr result (λ why. IsMakeError self.old why) }
        ensures keeps { IfErr result (λ _. Keeps self.old self.new) }
    {
        let Some(into) = self.table.free() else {
            return Err(StoreError::TooManyReferences);
        };
        match asking::make(&mut self.framed, into) {
            Ok(id) => {
                self.table.put(into, Some(id));
                Ok(Held { id, register: into })
            }
            Err(why) => Err(why),
        }
    }

    /// Forgets what a register holds. The root stays.
    pub(crate) fn release(&mut self, object: Held)
        requires live { is_live self.old ≡ true }
        ensures live { is_live self.new ≡ true }
        ensures forgets { Forgets object self.old self.new }
    {
        self.table.forget(object);
    }
}
