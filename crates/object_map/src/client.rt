//! The calls of a client that is alone at a store.
ghost use Rattle.std.specs.Prelude.{◌≡◌, ℕ, ◌<◌, ◌≤◌, [], ◌∷◌, None, IfOk, IfErr, IfSome, OnOk, IsSome};
ghost use Rattle.std.specs.Option.{option_map_or};
ghost use Rattle.plain_model.specs.Graphs.{root};
ghost use Rattle.plain_model.specs.Machine.{nonzero, step, IsInRange};
ghost use Rattle.plain_model.specs.History.{end_of};
ghost use Rattle.plain_model.specs.declared.write.Place.TheVariants.{Slot, Payload};
ghost use Rattle.logged_journal.specs.Calls.{IsOfJournal};
ghost use Rattle.core_store.specs.Steppings.{IsEntered};
ghost use Rattle.object_map.specs.Maps.{slot_of, payload_of, room_of};
ghost use Rattle.object_map.specs.Seen.{HasOnly, at, held, held_id, Loads, Writes, Makes};
ghost use Rattle.object_map.specs.Clients.{object_slots, client_at, state_of, seen, IsClient, IsInside, IsOfAlone, IsWant, IsAsked, Asks, Falls, refusal_for};

use crate::SLOTS;
use crate::refusal::MapRefusal;
use disk_model::Disk;
use plain_model::{Call, Reply};
use shared_store::LoneStore;
use std::marker::Model;

/// A client that has a transaction, which isn't aborting, and the store, in which no other client has one.
///
/// It is made for the time of the transaction: the store is handed over, and comes back by [`Client::into_store`].
#[derive(Drop)]
pub struct Client<D: Disk> {
    store: LoneStore<SLOTS, D>,
    number: u8,
}

/// Contracts see the store and the client's number.
impl<D: Disk> Model for Client<D> {
    ghost use Rattle.object_map.specs.Clients.{ClientView, client_at, IsClient};

    ghost Value = { ClientView D };

    ghost view = { λ a. client_at a.store a.number };

    ghost invariant = { λ a. IsClient a.store a.number };
}

/// Hears what the store answered: the reply of the transaction, or why there is none.
fn heard(reply: Reply) -> Result<Reply, MapRefusal>
    requires { IsOfAlone reply }
    ensures ok { IfOk result (λ told. told ≡ reply) }
    ensures entered { OnOk result (IsEntered reply) }
    ensures told { OnOk result (IsOfJournal reply) }
    ensures want { IfErr result (λ why. IsWant reply) }
    ensures why { IfErr result (λ why. why ≡ refusal_for reply) }
{
    match reply {
        Reply::Memory => Err(MapRefusal::Memory),
        Reply::TraceFull => Err(MapRefusal::Store { reply }),
        Reply::LogFull => Err(MapRefusal::Store { reply }),
        Reply::Again { .. } => unreachable!(),
        Reply::Stopped { .. } => unreachable!(),
        Reply::DiskFault => unreachable!(),
        Reply::Done => Ok(reply),
        Reply::Id(_) => Ok(reply),
        Reply::Pay(_) => Ok(reply),
        Reply::NoTxn => Ok(reply),
        Reply::HasTxn => Ok(reply),
        Reply::Aborting => Ok(reply),
        Reply::EmptyRegister { .. } => Ok(reply),
        Reply::NotShared => Ok(reply),
        Reply::Busy { .. } => Ok(reply),
        Reply::Full => Ok(reply),
    }
}

/// Makes the client's call at the store, and answers what the transaction was told.
fn ask<D: Disk>(
    store: &mut LoneStore<SLOTS, D>,
    number: u8,
    call: &Call,
) -> Result<Reply, MapRefusal>
    requires client { IsClient store.old number }
    requires range { IsInRange object_slots call.now }
    requires inside { IsInside call.now }
    ensures step { IfOk result (λ reply. step (state_of (client_at store.old number)) number call.now ≡ (reply, state_of (client_at store.new number))) }
    ensures asked { IfOk result (λ reply. IsAsked (client_at store.old number) call.now reply (client_at store.new number)) }
    ensures same { IfErr result (λ _. state_of (client_at store.new number) ≡ state_of (client_at store.old number)) }
    ensures refused { IfErr result (λ why. Falls 0 why (client_at store.old number) (client_at store.new number)) }
    ensures running { store.new.failed ≡ None }
{
    heard(store.call(number, call))
}

/// The id that the reply gives.
fn id_in(reply: Reply) -> Result<u32, MapRefusal>
    ensures id { (id : ℕ) → reply ≡ Reply.Id id → result ≡ Ok id }
    ensures full { reply ≡ Reply.Full → result ≡ Err (MapRefusal.Store reply) }
{
    match reply {
        Reply::Id(id) => Ok(id),
        reply => Err(MapRefusal::Store { reply }),
    }
}

/// The payload that the reply gives.
fn payload_in(reply: Reply) -> Result<u64, MapRefusal>
    ensures { (payload : ℕ) → reply ≡ Reply.Pay payload → result ≡ Ok payload }
{
    match reply {
        Reply::Pay(payload) => Ok(payload),
        reply => Err(MapRefusal::Store { reply }),
    }
}

/// Nothing, where the call was done.
fn done_in(reply: Reply) -> Result<(), MapRefusal>
    ensures { reply ≡ Reply.Done → result ≡ Ok tt }
{
    match reply {
        Reply::Done => Ok(()),
        reply => Err(MapRefusal::Store { reply }),
    }
}

impl<D: Disk> Client<D> {
    /// The client with this number, from 1 to 64, at this store. It has a transaction, which isn't aborting; no other client has one, and
    /// the disk failed no call.
    pub fn new(store: LoneStore<SLOTS, D>, number: u8) -> Client<D>
        requires some { 1 ≤ number }
        requires few { number ≤ 64 }
        requires running { store.failed ≡ None }
        requires alone { HasOnly (end_of store.journal.history).state number }
        ensures { result ≡ client_at store number }
    {
        // The journal is sound: this call hands the fact out.
        let _ = store.logged().journal().history();
        Client { store, number }
    }

    /// The store alone.
    pub fn into_store(self) -> LoneStore<SLOTS, D>
        ensures store { result ≡ self.store }
        ensures client { IsClient self.store self.number }
    {
        let Client { store, number: _ } = self;
        store
    }

    /// What is known of each client: an object has fourteen slots, and so has the root.
    pub(crate) fn know_slots(&self)
        ensures slots { (seen self.now).slots ≡ object_slots }
        ensures room { room_of (at (seen self.now) root) ≡ object_slots }
    {
        let _ = self.store.logged().journal().history();
    }

    /// An object that a register holds has fourteen slots too.
    pub(crate) fn know_held(&self, r: u8)
        requires register { r < 8 }
        requires full { IsSome (held (seen self.now) r) }
        ensures { room_of (at (seen self.now) (held_id (seen self.now) r)) ≡ object_slots }
    {
        let _ = self.store.logged().journal().history();
    }

    /// Loads what a slot of the object in register `r` holds into register `into`, which 0 empties, and answers it.
    pub(crate) fn read(&mut self, r: u8, slot: u8, into: u8) -> Result<u32, MapRefusal>
        requires register { r < 8 }
        requires full { IsSome (held (seen self.old) r) }
        requires slot { slot < object_slots }
        requires target { into < 8 }
        requires rooted { 0 < into }
        ensures ok { IfOk result (λ id. id ≡ slot_of (at (seen self.old) (held_id (seen self.old) r)) slot) }
        ensures loads { IfOk result (λ id. Loads into (nonzero id) (seen self.old) (seen self.new)) }
        ensures asks { OnOk result (Asks 1 [] self.old self.new) }
        ensures refused { IfErr result (λ why. Falls 0 why self.old self.new) }
    {
        let reply = ask(&mut self.store, self.number, &Call::Read { r, slot, into })?;
        id_in(reply)
    }

    /// The payload of the object in register `r`.
    pub(crate) fn get_pay(&mut self, r: u8) -> Result<u64, MapRefusal>
        requires register { r < 8 }
        requires full { IsSome (held (seen self.old) r) }
        ensures ok { IfOk result (λ value. value ≡ payload_of (at (seen self.old) (held_id (seen self.old) r))) }
        ensures same { OnOk result (seen self.new ≡ seen self.old) }
        ensures asks { OnOk result (Asks 1 [] self.old self.new) }
        ensures refused { IfErr result (λ why. Falls 0 why self.old self.new) }
    {
        let reply = ask(&mut self.store, self.number, &Call::GetPay { r })?;
        payload_in(reply)
    }

    /// Sets a slot of the object in register `r` to the id in register `from`, or to 0 without one.
    pub(crate) fn store(&mut self, r: u8, slot: u8, from: Option<u8>) -> Result<(), MapRefusal>
        requires register { r < 8 }
        requires full { IsSome (held (seen self.old) r) }
        requires slot { slot < object_slots }
        requires source { IfSome from (λ f. f < 8) }
        requires source_full { IfSome from (λ f. IsSome (held (seen self.old) f)) }
        ensures ok { OnOk result (Writes (held_id (seen self.old) r) (Slot slot) (option_map_or (held_id (seen self.old)) from 0) (seen self.old) (seen self.new)) }
        ensures asks { OnOk result (Asks 0 (Call.Store r slot from ∷ []) self.old self.new) }
        ensures refused { IfErr result (λ why. Falls 0 why self.old self.new) }
    {
        let reply = ask(&mut self.store, self.number, &Call::Store { r, slot, from })?;
        done_in(reply)
    }

    /// Sets the payload of the object in register `r`.
    pub(crate) fn set_pay(&mut self, r: u8, value: u64) -> Result<(), MapRefusal>
        requires register { r < 8 }
        requires full { IsSome (held (seen self.old) r) }
        ensures ok { OnOk result (Writes (held_id (seen self.old) r) Payload value (seen self.old) (seen self.new)) }
        ensures asks { OnOk result (Asks 0 (Call.SetPay r value ∷ []) self.old self.new) }
        ensures refused { IfErr result (λ why. Falls 0 why self.old self.new) }
    {
        let reply = ask(&mut self.store, self.number, &Call::SetPay { r, value })?;
        done_in(reply)
    }

    /// Makes a new object, and loads its id into register `into`.
    pub(crate) fn make(&mut self, into: u8) -> Result<u32, MapRefusal>
        requires target { into < 8 }
        requires rooted { 0 < into }
        ensures ok { IfOk result (λ id. Makes into id (seen self.old) (seen self.new)) }
        ensures asks { OnOk result (Asks 0 (Call.Make into ∷ []) self.old self.new) }
        ensures refused { IfErr result (λ why. Falls 1 why self.old self.new) }
    {
        let reply = ask(&mut self.store, self.number, &Call::Make { into })?;
        id_in(reply)
    }
}
