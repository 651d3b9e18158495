//! What each call does that isn't refused.
ghost use Rattle.std.specs.Prelude.{◌≡◌, ◌+◌, ◌^◌, ◌<◌, ◌≤◌, List, Ok, IfOk, IsOk, OnErr, OnOk, IsSome, Some, None, if◌then◌else◌, ◌==◌};
ghost use Rattle.strict_locks.specs.Locks.{holders_of, StandsInWayOfOwn, Nobody};
ghost use Rattle.store_model.specs.Core.{Core};
ghost use Rattle.core_store.specs.declared.three.HeldFrame.{HeldFrame};
ghost use Rattle.core_store.specs.Owed.{entries_needed};
ghost use Rattle.core_store.specs.Plans.{entries_needed_by, IsPlanned};
ghost use Rattle.core_store.specs.Transactions.{running_at};
ghost use Rattle.core_store.specs.Frames.{pages_held};
ghost use Rattle.core_store.specs.Views.{view_of};
ghost use Rattle.core_store.specs.Stands.{Stands};
ghost use Rattle.core_store.specs.Ready.{IsReady, OwnsToWrite, Does, DoesPlanned};

use crate::plan::Plan;
use crate::tables::Tables;
use crate::three::Three;
use crate::transaction::Transaction;
use crate::{locks, references, slots, transactions};
use cell_page::Cell;
use log_record::CellRecord;
use plain_model::{Call, Memory, Place, Reply, Write};
use ref_tables::Kind;

/// How many registers a transaction has, and so how many references a `Release` adds at most.
const MOST_HELD: u32 = 8;

/// What a call is answered, and what it logs.
#[derive(Clone, Copy)]
pub(crate) struct Performed {
    pub(crate) reply: Reply,
    pub(crate) logged: Option<CellRecord>,
}

/// What a register holds after a read: 0 empties it.
fn nonzero(id: u32) -> Option<u32>
    ensures { result ≡ (if id == 0 then None else Some id) }
{
    if id == 0 { None } else { Some(id) }
}

impl<const SLOTS: usize> Tables<SLOTS> {
    fn begin(&mut self, pass: u8) -> Result<Performed, Memory>
        requires room { self.old.owed + 1 < 2 ^ 64 }
        requires none { running_at self.old.transactions.entries pass ≡ None }
        ensures ok { IfOk result (λ o. (held : List (HeldFrame SLOTS)) → Does (view_of self.old) (view_of self.new) held held pass Plan.Begin o) }
        ensures owed { self.new.owed ≤ self.old.owed + 1 }
        ensures err { OnErr result (view_of self.new ≡ view_of self.old) }
    {
        self.transactions
            .insert(pass, Transaction::new(self.alloc))?;
        self.owed += 1;
        Ok(Performed {
            reply: Reply::Done,
            logged: Some(CellRecord::Begin { pass }),
        })
    }

    fn read(
        &mut self,
        held: &Three<SLOTS>,
        pass: u8,
        id: u32,
        slot: u8,
        into: u8,
    ) -> Result<Performed, Memory>
        requires ready { IsReady (view_of self.old) held.now pass (Plan.Read id slot into) }
        ensures ok { IfOk result (Does (view_of self.old) (view_of self.new) held.now held.now pass (Plan.Read id slot into)) }
        ensures owed { self.new.owed ≡ self.old.owed }
        ensures err { OnErr result (view_of self.new ≡ view_of self.old) }
    {
        locks::share(&mut self.locks, pass, id)?;
        let value = held.cell(id).slots[slot as usize];
        transactions::load(&mut self.transactions, pass, into, nonzero(value));
        Ok(Performed {
            reply: Reply::Id(value),
            logged: None,
        })
    }

    fn get(&mut self, held: &Three<SLOTS>, pass: u8, id: u32) -> Result<Performed, Memory>
        requires ready { IsReady (view_of self.old) held.now pass (Plan.Get id) }
        ensures ok { IfOk result (Does (view_of self.old) (view_of self.new) held.now held.now pass (Plan.Get id)) }
        ensures owed { self.new.owed ≡ self.old.owed }
        ensures err { OnErr result (view_of self.new ≡ view_of self.old) }
    {
        locks::share(&mut self.locks, pass, id)?;
        Ok(Performed {
            reply: Reply::Pay(held.cell(id).payload),
            logged: None,
        })
    }

    /// The client gives its shared lock on the object back, and names what its registers hold until its transaction ends. Room for
    /// that is taken first, so that nothing has to be undone.
    fn release(&mut self, pass: u8, id: u32) -> Result<Performed, Memory>
        requires ready { (held : List (HeldFrame SLOTS)) × IsReady (view_of self.old) held pass (Plan.Release id) }
        ensures ok { IfOk result (λ o. (held : List (HeldFrame SLOTS)) → Does (view_of self.old) (view_of self.new) held held pass (Plan.Release id) o) }
        ensures owed { self.new.owed ≡ self.old.owed }
        ensures err { OnErr result (view_of self.new ≡ view_of self.old) }
    {
        let registers = transactions::registers(&self.transactions, pass);
        self.references.reserve(pass, MOST_HELD)?;
        references::note_held(&mut self.references, pass, registers);
        self.locks.drop_shared(pass, id);
        Ok(Performed {
            reply: Reply::Done,
            logged: None,
        })
    }

    /// The client owns the object, and owes the undo of a write that replaced this.
    #[inline(always)]
    fn own_to_write(&mut self, pass: u8, id: u32, replaced: Write) -> Result<(), Memory>
        requires nobody { Nobody (StandsInWayOfOwn (holders_of self.old.locks id) pass) }
        requires active { IsSome (running_at self.old.transactions.entries pass) }
        requires room { self.old.owed + 1 < 2 ^ 64 }
        ensures ok { OnOk result (OwnsToWrite (view_of self.old) (view_of self.new) pass id replaced) }
        ensures references { self.new.references ≡ self.old.references }
        ensures err { OnErr result (view_of self.new ≡ view_of self.old) }
    {
        transactions::note(&mut self.transactions, pass, replaced)?;
        if let Err(error) = locks::own(&mut self.locks, pass, id) {
            transactions::forget(&mut self.transactions, pass);
            return Err(error);
        }
        self.owed += 1;
        Ok(())
    }

    fn store(
        &mut self,
        held: &mut Three<SLOTS>,
        pass: u8,
        id: u32,
        slot: u8,
        target: u32,
    ) -> Result<Performed, Memory>
        requires ready { IsReady (view_of self.old) held.old pass (Plan.Store id slot target) }
        requires room { self.old.owed + 1 < 2 ^ 64 }
        ensures ok { IfOk result (Does (view_of self.old) (view_of self.new) held.old held.new pass (Plan.Store id slot target)) }
        ensures owed { self.new.owed ≤ self.old.owed + 1 }
        ensures err { OnErr result ((view_of self.new ≡ view_of self.old) × (held.new ≡ held.old)) }
        ensures pages { pages_held held.new ≡ pages_held held.old }
    {
        let replaced = Write {
            id,
            place: Place::Slot(slot),
            value: held.cell(id).slots[slot as usize].into(),
        };
        self.references.reserve(pass, 2)?;
        self.own_to_write(pass, id, replaced)?;
        let change = slots::store(held, &mut self.zeros, id, slot, target);
        references::note(&mut self.references, pass, change.old_target, Kind::Cut);
        references::note(&mut self.references, pass, target, Kind::Put);
        self.touch(id, change.old_target, target);
        Ok(Performed {
            reply: Reply::Done,
            logged: Some(CellRecord::Store {
                pass,
                id,
                slot,
                old_target: change.old_target,
                old_strong: change.old_strong,
                new_target: target,
                new_bit: change.new_bit,
                new_strong: change.new_strong,
            }),
        })
    }

    fn set(
        &mut self,
        held: &mut Three<SLOTS>,
        pass: u8,
        id: u32,
        value: u64,
    ) -> Result<Performed, Memory>
        requires ready { IsReady (view_of self.old) held.old pass (Plan.Set id value) }
        requires room { self.old.owed + 1 < 2 ^ 64 }
        ensures ok { IfOk result (Does (view_of self.old) (view_of self.new) held.old held.new pass (Plan.Set id value)) }
        ensures owed { self.new.owed ≤ self.old.owed + 1 }
        ensures err { OnErr result ((view_of self.new ≡ view_of self.old) × (held.new ≡ held.old)) }
        ensures pages { pages_held held.new ≡ pages_held held.old }
    {
        let replaced = Write {
            id,
            place: Place::Payload,
            value: held.cell(id).payload,
        };
        self.own_to_write(pass, id, replaced)?;
        let old_value = slots::pay(held, id, value);
        Ok(Performed {
            reply: Reply::Done,
            logged: Some(CellRecord::Pay {
                pass,
                id,
                old_value,
                new_value: value,
            }),
        })
    }

    fn make(
        &mut self,
        held: &mut Three<SLOTS>,
        pass: u8,
        id: u32,
        into: u8,
    ) -> Result<Performed, Memory>
        requires ready { IsReady (view_of self.old) held.old pass (Plan.Make id into) }
        ensures ok { IfOk result (Does (view_of self.old) (view_of self.new) held.old held.new pass (Plan.Make id into)) }
        ensures owed { self.new.owed ≡ self.old.owed }
        ensures err { OnErr result ((view_of self.new ≡ view_of self.old) × (held.new ≡ held.old)) }
        ensures pages { pages_held held.new ≡ pages_held held.old }
    {
        self.references.reserve(pass, 1)?;
        locks::own(&mut self.locks, pass, id)?;
        references::note(&mut self.references, pass, id, Kind::Made);
        self.free.remove(id);
        held.put_cell(Cell::new_object(id));
        transactions::load(&mut self.transactions, pass, into, Some(id));
        Ok(Performed {
            reply: Reply::Id(id),
            logged: Some(CellRecord::Make { pass, id }),
        })
    }

    fn commit(&mut self, pass: u8) -> Performed
        requires standing { (c : Core) × Stands SLOTS (view_of self.old) c }
        ensures does { (held : List (HeldFrame SLOTS)) → Does (view_of self.old) (view_of self.new) held held pass Plan.Commit result }
        ensures owed { self.new.owed ≤ self.old.owed }
        ensures spare { IsSome (running_at self.old.transactions.entries pass) → self.new.owed + 1 ≤ self.old.owed }
    {
        self.end(pass);
        Performed {
            reply: Reply::Done,
            logged: Some(CellRecord::Commit { pass }),
        }
    }

    /// Does what a call does that isn't refused. Out of memory leaves all as it was.
    fn grant(&mut self, held: &mut Three<SLOTS>, pass: u8, plan: Plan) -> Result<Performed, Memory>
        requires ready { IsReady (view_of self.old) held.old pass plan }
        requires room { self.old.owed + 1 < 2 ^ 64 }
        ensures ok { IfOk result (Does (view_of self.old) (view_of self.new) held.old held.new pass plan) }
        ensures owed { self.new.owed + 1 ≤ self.old.owed + entries_needed_by plan }
        ensures commit { plan ≡ Plan.Commit → IsOk result × (self.new.owed + 1 ≤ self.old.owed) }
        ensures err { OnErr result ((view_of self.new ≡ view_of self.old) × (held.new ≡ held.old)) }
        ensures pages { pages_held held.new ≡ pages_held held.old }
    {
        match plan {
            Plan::Begin => self.begin(pass),
            Plan::Read { id, slot, into } => self.read(held, pass, id, slot, into),
            Plan::Make { id, into } => self.make(held, pass, id, into),
            Plan::Store { id, slot, target } => self.store(held, pass, id, slot, target),
            Plan::Get { id } => self.get(held, pass, id),
            Plan::Release { id } => self.release(pass, id),
            Plan::Set { id, value } => self.set(held, pass, id, value),
            Plan::Commit => Ok(self.commit(pass)),
        }
    }

    /// Does what was planned: a refusal changes nothing, and all else is done as the reference machine does it. Out of
    /// memory leaves all as it was.
    pub(crate) fn perform(
        &mut self,
        held: &mut Three<SLOTS>,
        pass: u8,
        planned: Result<Plan, Reply>,
    ) -> Result<Performed, Memory>
        requires ready { IfOk planned (IsReady (view_of self.old) held.old pass) }
        requires room { self.old.owed + 1 < 2 ^ 64 }
        ensures ok { IfOk result (DoesPlanned (view_of self.old) (view_of self.new) held.old held.new pass planned) }
        ensures owed { (call : Call) → IsPlanned SLOTS (view_of self.old) pass call planned → self.new.owed + 1 ≤ self.old.owed + entries_needed call }
        ensures commit { planned ≡ Ok Plan.Commit → IsOk result × (self.new.owed + 1 ≤ self.old.owed) }
        ensures err { OnErr result ((view_of self.new ≡ view_of self.old) × (held.new ≡ held.old)) }
        ensures pages { pages_held held.new ≡ pages_held held.old }
    {
        match planned {
            Ok(plan) => self.grant(held, pass, plan),
            Err(reply) => Ok(Performed {
                reply,
                logged: None,
            }),
        }
    }
}
