//! The client's calls at the store below, inside its transaction.
ghost use Rattle.std.specs.Prelude.{◌≡◌, ℕ, ◌<◌, None, IfOk, IfErr, IfSome, OnOk};
ghost use Rattle.plain_model.specs.declared.write.Place.TheVariants.{Slot, Payload};
ghost use Rattle.plain_model.specs.Graphs.{after_set};
ghost use Rattle.plain_model.specs.Machine.{IsInRange};
ghost use Rattle.core_store.specs.Steppings.{IsEntered};
ghost use Rattle.logged_journal.specs.Calls.{IsOfJournal};
ghost use Rattle.object_store.specs.Seen.{object_slots, state_of, graph_in, IsLive};
ghost use Rattle.object_store.specs.Calls.{Does, IsShort, IsIn, Reads, Looks, Writes, Makes, IsMakeShort, IsInside, IsOfLive, IsWant, error_of};
ghost use Rattle.object_store.specs.Steps.{id_of, register_of};

use crate::error::StoreError;
use crate::reference::Held;
use crate::{CLIENT, SLOTS};
use disk_model::Disk;
use framed_journal::FramedJournal;
use plain_model::{Call, Reply};

/// Hears what the store below answered: the reply of the transaction, or what is short.
pub(crate) fn heard(reply: Reply) -> Result<Reply, StoreError>
    requires { IsOfLive reply }
    ensures ok { IfOk result (λ told. told ≡ reply) }
    ensures entered { OnOk result (IsEntered reply) }
    ensures told { OnOk result (IsOfJournal reply) }
    ensures want { IfErr result (λ _. IsWant reply) }
    ensures why { IfErr result (λ why. why ≡ error_of reply) }
{
    match reply {
        Reply::Memory => Err(StoreError::Memory),
        Reply::TraceFull => Err(StoreError::HistoryFull),
        Reply::LogFull => Err(StoreError::LogFull),
        Reply::Stopped { .. } => unreachable!(),
        Reply::DiskFault => unreachable!(),
        Reply::Again { .. } => Ok(reply),
        Reply::Done => Ok(reply),
        Reply::Id(_) => Ok(reply),
        Reply::Pay(_) => Ok(reply),
        Reply::NoTxn => Ok(reply),
        Reply::HasTxn => Ok(reply),
        Reply::Aborting => Ok(reply),
        Reply::EmptyRegister { .. } => Ok(reply),
        Reply::NotShared => Ok(reply),
        Reply::Busy { .. } => Ok(reply),
        Reply::Full => Ok(reply),
    }
}

/// Makes the client's call at the store below.
pub(crate) fn ask<D: Disk>(
    below: &mut FramedJournal<SLOTS, D>,
    call: &Call,
) -> Result<Reply, StoreError>
    requires running { below.old.failed ≡ None }
    requires range { IsInRange object_slots call.now }
    requires inside { IsInside call.now }
    ensures does { IfOk result (λ reply. Does call.now reply below.old below.new) }
    ensures short { IfErr result (λ why. IsShort call.now why below.old below.new) }
    ensures running { below.new.failed ≡ None }
{
    heard(below.call(CLIENT, call))
}

/// The id that the reply gives. A reply without one says that no id is free.
fn id_in(reply: Reply) -> Result<u32, StoreError>
    ensures id { (id : ℕ) → reply ≡ Reply.Id id → result ≡ Ok id }
    ensures full { reply ≡ Reply.Full → result ≡ Err StoreError.Full }
{
    match reply {
        Reply::Id(id) => Ok(id),
        _ => Err(StoreError::Full),
    }
}

/// The payload that the reply gives.
fn payload_in(reply: Reply) -> u64
    ensures { (payload : ℕ) → reply ≡ Reply.Pay payload → result ≡ payload }
{
    match reply {
        Reply::Pay(payload) => payload,
        _ => 0,
    }
}

/// Reads a slot of the object into a register, and answers the id there, or 0.
pub(crate) fn read<D: Disk>(
    below: &mut FramedJournal<SLOTS, D>,
    object: Held,
    slot: u8,
    into: u8,
) -> Result<u32, StoreError>
    requires live { IsLive below.old }
    requires held { IsIn below.old object }
    requires slot { slot < object_slots }
    requires target { into < 8 }
    ensures live { IsLive below.new }
    ensures reads { IfOk result (λ id. Reads object slot into id below.old below.new) }
    ensures short { IfErr result (λ why. IsShort (Call.Read object.register slot into) why below.old below.new) }
{
    let call = Call::Read {
        r: object.register,
        slot,
        into,
    };
    match ask(below, &call) {
        Ok(reply) => id_in(reply),
        Err(why) => Err(why),
    }
}

/// The payload of the object.
pub(crate) fn get_pay<D: Disk>(
    below: &mut FramedJournal<SLOTS, D>,
    object: Held,
) -> Result<u64, StoreError>
    requires live { IsLive below.old }
    requires held { IsIn below.old object }
    ensures live { IsLive below.new }
    ensures looks { IfOk result (λ payload. Looks object payload below.old below.new) }
    ensures short { IfErr result (λ why. IsShort (Call.GetPay object.register) why below.old below.new) }
{
    let call = Call::GetPay { r: object.register };
    match ask(below, &call) {
        Ok(reply) => Ok(payload_in(reply)),
        Err(why) => Err(why),
    }
}

/// Sets a slot of the object to another one, or to none.
pub(crate) fn store<D: Disk>(
    below: &mut FramedJournal<SLOTS, D>,
    object: Held,
    slot: u8,
    to: Option<Held>,
) -> Result<(), StoreError>
    requires live { IsLive below.old }
    requires held { IsIn below.old object }
    requires slot { slot < object_slots }
    requires held_to { IfSome to (IsIn below.old) }
    ensures live { IsLive below.new }
    ensures writes { OnOk result (Writes (Call.Store object.register slot (register_of to)) (after_set object.id (Slot slot) (id_of to) (graph_in (state_of below.old))) below.old below.new) }
    ensures short { IfErr result (λ why. IsShort (Call.Store object.register slot (register_of to)) why below.old below.new) }
{
    let call = Call::Store {
        r: object.register,
        slot,
        from: register(to),
    };
    match ask(below, &call) {
        Ok(_) => Ok(()),
        Err(why) => Err(why),
    }
}

/// The register of a reference.
fn register(held: Option<Held>) -> Option<u8>
    ensures { result ≡ register_of held }
{
    match held {
        Some(held) => Some(held.register),
        None => None,
    }
}

/// Sets the payload of the object.
pub(crate) fn set_pay<D: Disk>(
    below: &mut FramedJournal<SLOTS, D>,
    object: Held,
    value: u64,
) -> Result<(), StoreError>
    requires live { IsLive below.old }
    requires held { IsIn below.old object }
    ensures live { IsLive below.new }
    ensures writes { OnOk result (Writes (Call.SetPay object.register value) (after_set object.id Payload value (graph_in (state_of below.old))) below.old below.new) }
    ensures short { IfErr result (λ why. IsShort (Call.SetPay object.register value) why below.old below.new) }
{
    let call = Call::SetPay {
        r: object.register,
        value,
    };
    match ask(below, &call) {
        Ok(_) => Ok(()),
        Err(why) => Err(why),
    }
}

/// Makes an object, and loads its id into a register.
pub(crate) fn make<D: Disk>(
    below: &mut FramedJournal<SLOTS, D>,
    into: u8,
) -> Result<u32, StoreError>
    requires live { IsLive below.old }
    requires target { into < 8 }
    ensures live { IsLive below.new }
    ensures makes { IfOk result (λ id. Makes into id below.old below.new) }
    ensures short { IfErr result (λ why. IsMakeShort into why below.old below.new) }
{
    // How many slots an object has: this call hands the fact out.
    let _ = below.logged();
    let call = Call::Make { into };
    match ask(below, &call) {
        Ok(reply) => id_in(reply),
        Err(why) => Err(why),
    }
}
