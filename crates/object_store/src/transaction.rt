//! Transactions.
ghost use Rattle.std.specs.Prelude.{◌≡◌, ◌↔◌, true, false, IfOk, IfErr, OnOk, IsErrOf, option_map};
ghost use Rattle.disk_model.specs.Time.{LeavesOnlyImages};
ghost use Rattle.plain_model.specs.declared.write.Place.TheVariants.{Slot, Payload};
ghost use Rattle.plain_model.specs.Graphs.{root, has_object};
ghost use Rattle.logged_journal.specs.Opens.{OpensDuring};
ghost use Rattle.object_store.specs.Seen.{object_slots, client};
ghost use Rattle.object_store.specs.Handles.{is_live, graph_of, Holds};
ghost use Rattle.object_store.specs.Steps.{id_of, register_of, Keeps, Gets, Shows, Sets, MakesObject, IsObjectError, IsGetError, IsSetError, IsMakeError, Forgets, Aborts, FailsToCommit};
ghost use Rattle.object_store.specs.Tended.{IsTooLong, CommitsAndCollects};

use crate::error::StoreError;
use crate::reference::{Held, Ref};
use crate::store::Store;
use disk_model::Disk;
use plain_model::Call;

/// A transaction, which borrows its store.
///
/// Nobody sees what it wrote before [`Transaction::commit`]. Where it is dropped, its writes are lost: the next transaction begins on what
/// was committed, and so does the next opening.
///
/// It is open until it is committed or aborted: what `begin` gives is, and each call leaves it so. Of one that isn't the clauses say that
/// each call answers [`StoreError::Ended`] and does nothing.
pub struct Transaction<'t, D: Disk> {
    store: &'t mut Store<D>,
}

/// What is held, where there is a reference.
fn held(reference: Option<Ref<'_>>) -> Option<Held>
    ensures { result ≡ option_map (λ r. r.held) reference.entry }
{
    match reference {
        Some(reference) => Some(reference.held()),
        None => None,
    }
}

impl<'t, D: Disk> Transaction<'t, D> {
    /// The transaction that was just begun.
    pub(crate) fn new(store: &'t mut Store<D>) -> Transaction<'t, D>
        ensures same_reference { result.store.ghost_name ≡ store.entry.ghost_name }
        ensures same { result.store.now ≡ store.old }
    {
        Transaction { store }
    }

    /// The root. It is always held.
    pub fn root(&self) -> Ref<'t>
        ensures root { result.held.id ≡ root }
        ensures holds { is_live self.now.store.now ≡ true → Holds self.now.store.now result.held }
    {
        Ref::new(self.store.root())
    }

    /// Whether the transaction holds the reference. Then its object is in the graph that the transaction sees.
    pub fn holds(&self, object: Ref<'t>) -> bool
        ensures holds { is_live self.now.store.now ≡ true → (result ≡ true) ↔ Holds self.now.store.now object.entry.held }
        ensures there { result ≡ true → has_object (graph_of self.now.store.now) object.entry.held.id ≡ true }
        ensures ended { is_live self.now.store.now ≡ false → result ≡ false }
    {
        if !self.store.is_open() {
            return false;
        }
        self.store.holds(object.held())
    }

    /// Makes an object with empty slots and payload 0.
    pub fn make(&mut self) -> Result<Ref<'t>, StoreError>
        ensures same_reference { self.new.store.ghost_name ≡ self.old.store.ghost_name }
        ensures live { is_live self.new.store.now ≡ is_live self.old.store.now }
        ensures ended { is_live self.old.store.now ≡ false → IsErrOf result StoreError.Ended × (self.new.store.now ≡ self.old.store.now) }
        ensures makes { IfOk result (λ made. MakesObject made.held self.old.store.now self.new.store.now) }
        ensures refused { IfErr result (λ why. IsMakeError self.old.store.now why) }
        ensures keeps { IfErr result (λ _. Keeps self.old.store.now self.new.store.now) }
        ensures alone { IfErr result (λ why. why ≡ StoreError.LogFull → IsTooLong self.old.store.now (Call.Make 0)) }
    {
        if !self.store.is_open() {
            return Err(StoreError::Ended);
        }
        match self.store.make() {
            Ok(made) => Ok(Ref::new(made)),
            Err(why) => Err(why),
        }
    }

    /// The reference that a slot of the object holds, if it holds one.
    pub fn get(&mut self, object: Ref<'t>, slot: u8) -> Result<Option<Ref<'t>>, StoreError>
        ensures same_reference { self.new.store.ghost_name ≡ self.old.store.ghost_name }
        ensures live { is_live self.new.store.now ≡ is_live self.old.store.now }
        ensures ended { is_live self.old.store.now ≡ false → IsErrOf result StoreError.Ended × (self.new.store.now ≡ self.old.store.now) }
        ensures gets { IfOk result (λ found. Gets object.entry.held slot (option_map (λ r. r.held) found) self.old.store.now self.new.store.now) }
        ensures refused { IfErr result (λ why. IsGetError object.entry.held slot self.old.store.now why) }
        ensures keeps { IfErr result (λ _. Keeps self.old.store.now self.new.store.now) }
        ensures alone { IfErr result (λ why. why ≡ StoreError.LogFull → IsTooLong self.old.store.now (Call.Read object.entry.held.register slot 0)) }
    {
        if !self.store.is_open() {
            return Err(StoreError::Ended);
        }
        match self.store.get(object.held(), slot) {
            Ok(Some(found)) => Ok(Some(Ref::new(found))),
            Ok(None) => Ok(None),
            Err(why) => Err(why),
        }
    }

    /// Sets a slot of the object to another one, or empties it.
    pub fn set(&mut self, object: Ref<'t>, slot: u8, to: Option<Ref<'t>>) -> Result<(), StoreError>
        ensures same_reference { self.new.store.ghost_name ≡ self.old.store.ghost_name }
        ensures live { is_live self.new.store.now ≡ is_live self.old.store.now }
        ensures ended { is_live self.old.store.now ≡ false → IsErrOf result StoreError.Ended × (self.new.store.now ≡ self.old.store.now) }
        ensures sets { OnOk result (Sets object.entry.held (Slot slot) (id_of (option_map (λ r. r.held) to.entry)) (Call.Store object.entry.held.register slot (register_of (option_map (λ r. r.held) to.entry))) self.old.store.now self.new.store.now) }
        ensures refused { IfErr result (λ why. IsSetError object.entry.held slot (option_map (λ r. r.held) to.entry) self.old.store.now why) }
        ensures keeps { IfErr result (λ _. Keeps self.old.store.now self.new.store.now) }
        ensures alone { IfErr result (λ why. why ≡ StoreError.LogFull → IsTooLong self.old.store.now (Call.Store object.entry.held.register slot (register_of (option_map (λ r. r.held) to.entry)))) }
    {
        if !self.store.is_open() {
            return Err(StoreError::Ended);
        }
        self.store.set(object.held(), slot, held(to))
    }

    /// The payload of the object.
    pub fn payload(&mut self, object: Ref<'t>) -> Result<u64, StoreError>
        ensures same_reference { self.new.store.ghost_name ≡ self.old.store.ghost_name }
        ensures live { is_live self.new.store.now ≡ is_live self.old.store.now }
        ensures ended { is_live self.old.store.now ≡ false → IsErrOf result StoreError.Ended × (self.new.store.now ≡ self.old.store.now) }
        ensures shows { IfOk result (λ payload. Shows object.entry.held payload self.old.store.now self.new.store.now) }
        ensures refused { IfErr result (λ why. IsObjectError object.entry.held (Call.GetPay object.entry.held.register) self.old.store.now why) }
        ensures keeps { IfErr result (λ _. Keeps self.old.store.now self.new.store.now) }
        ensures alone { IfErr result (λ why. why ≡ StoreError.LogFull → IsTooLong self.old.store.now (Call.GetPay object.entry.held.register)) }
    {
        if !self.store.is_open() {
            return Err(StoreError::Ended);
        }
        self.store.payload(object.held())
    }

    /// Sets the payload of the object.
    pub fn set_payload(&mut self, object: Ref<'t>, value: u64) -> Result<(), StoreError>
        ensures same_reference { self.new.store.ghost_name ≡ self.old.store.ghost_name }
        ensures live { is_live self.new.store.now ≡ is_live self.old.store.now }
        ensures ended { is_live self.old.store.now ≡ false → IsErrOf result StoreError.Ended × (self.new.store.now ≡ self.old.store.now) }
        ensures sets { OnOk result (Sets object.entry.held Payload value (Call.SetPay object.entry.held.register value) self.old.store.now self.new.store.now) }
        ensures refused { IfErr result (λ why. IsObjectError object.entry.held (Call.SetPay object.entry.held.register value) self.old.store.now why) }
        ensures keeps { IfErr result (λ _. Keeps self.old.store.now self.new.store.now) }
        ensures alone { IfErr result (λ why. why ≡ StoreError.LogFull → IsTooLong self.old.store.now (Call.SetPay object.entry.held.register value)) }
    {
        if !self.store.is_open() {
            return Err(StoreError::Ended);
        }
        self.store.set_payload(object.held(), value)
    }

    /// Lets the object go, so that there is room for another reference. The root stays held.
    pub fn release(&mut self, object: Ref<'t>)
        ensures same_reference { self.new.store.ghost_name ≡ self.old.store.ghost_name }
        ensures live { is_live self.new.store.now ≡ is_live self.old.store.now }
        ensures ended { is_live self.old.store.now ≡ false → self.new.store.now ≡ self.old.store.now }
        ensures forgets { is_live self.old.store.now ≡ true → Forgets object.entry.held self.old.store.now self.new.store.now }
    {
        if self.store.is_open() {
            self.store.release(object.held());
        }
    }

    /// Commits the transaction. At `Ok` what it wrote is durable. Then so many steps of the collector are made as the options say, or fewer
    /// where nothing is left to do or something is short.
    ///
    /// [`StoreError::Disk`] comes only where the disk's count of faults rose in this call; then the next opening finds all of the
    /// transaction or nothing of it. At each other error it was aborted.
    pub fn commit(self) -> Result<(), StoreError>
        ensures ended { is_live self.entry.store.now ≡ false → IsErrOf result StoreError.Ended }
        ensures done { OnOk result (CommitsAndCollects self.entry.store.now self.exit.0.now) }
        ensures failed { IfErr result (λ why. FailsToCommit D.faults self.entry.store.now self.exit.0.now why) }
        ensures alone { IfErr result (λ why. why ≡ StoreError.LogFull → IsTooLong self.entry.store.now Call.Commit) }

        // At each moment of the call a power loss leaves a disk that opens, to a graph that a crash before the call may leave, or, where
        // the commit is granted, one after the disk failed it.
        ensures opens { is_live self.entry.store.now ≡ true → LeavesOnlyImages D.moment D.left_since self.entry.store.now.below.disk self.exit.0.now.below.disk (OpensDuring object_slots self.entry.store.now.below client Call.Commit) }
    {
        let Transaction { store } = self;
        if !store.is_open() {
            return Err(StoreError::Ended);
        }
        store.commit_and_collect()
    }

    /// Ends the transaction without its writes.
    pub fn abort(self)
        ensures ended { is_live self.entry.store.now ≡ false → self.exit.0.now ≡ self.entry.store.now }
        ensures aborts { is_live self.entry.store.now ≡ true → Aborts self.entry.store.now self.exit.0.now }
    {
        let Transaction { store } = self;
        if store.is_open() {
            store.abort();
        }
    }
}

// The store is left as it is: the next `begin` ends what is open.
impl<D: Disk> Drop for Transaction<'_, D> {
    fn drop(self)
        ensures { self.exit.0.now ≡ self.entry.store.now }
    {
        let Transaction { store: _ } = self;
    }
}
