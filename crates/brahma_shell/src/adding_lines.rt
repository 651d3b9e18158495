//! One call more of a client.
ghost use Rattle.std.specs.Prelude.{◌≡◌, ◌<◌, ◌++◌, ◌∷◌, [], length, OnOk, OnErr, IfOk, IfErr, MatchOption, position, ◌==◌, false, true};
ghost use Rattle.std.specs.List.{AllByRecursion};
ghost use Rattle.plain_model.specs.declared.calls.Call.TheVariants.{Begin};
ghost use Rattle.client_pass.specs.Runs.{IsNobody};
ghost use Rattle.brahma_shell.specs.declared.line_refusal.LineRefusal.TheVariants as refusal;
ghost use Rattle.brahma_shell.specs.LineOrder.{is_first, is_last, is_between, MayFollow};
ghost use Rattle.brahma_shell.specs.ClientScripts.{all_calls, AreTransactions, IsExtended, IsScript, TellsWhether, begun, ExtendsAt, TellsAt, IsAt};

use crate::line_refusal::LineRefusal;
use client_pass::{Calls, ClientScript, Txns};
use plain_model::Call;
use std::alloc::Global;

/// Whether the call is the first one of a transaction.
fn is_first(call: Call) -> bool
    ensures { result ≡ is_first call }
{
    matches!(call, Call::Begin)
}

/// Whether the call is the last one of a transaction.
fn is_last(call: Call) -> bool
    ensures { result ≡ is_last call }
{
    matches!(call, Call::Commit | Call::Abort)
}

/// Whether a transaction with these calls after its `Begin` has ended.
fn has_ended(calls: &Calls) -> bool
    ensures { result ≡ is_between (Begin ∷ calls.now) }
{
    match calls.items().last() {
        Some(call) => is_last(*call),
        None => false,
    }
}

/// Whether no transaction is left open.
fn is_between(txns: &Txns) -> bool
    ensures { result ≡ is_between (all_calls txns.now) }
{
    match txns.items().last() {
        Some(calls) => has_ended(calls),
        None => true,
    }
}

/// A transaction begins after those that have ended.
fn begin(txns: &mut Txns, alloc: Global) -> Result<(), LineRefusal>
    ensures added { OnOk result (txns.new ≡ txns.old ++ [] ∷ []) }
    ensures refused { IfErr result (λ e. e ≡ refusal.Memory) }
    ensures unchanged { OnErr result (txns.new ≡ txns.old) }
{
    match txns.push(Calls::new(alloc)) {
        Ok(()) => Ok(()),
        Err(_) => Err(LineRefusal::Memory),
    }
}

/// The last transaction has the call more, which doesn't begin one.
fn go_on(txns: &mut Txns, call: Call) -> Result<(), LineRefusal>
    requires some { AreTransactions txns.old }
    requires still { is_between (all_calls txns.old) ≡ false }
    requires inside { is_first call ≡ false }
    ensures added { OnOk result (IsExtended txns.old call txns.new) }
    ensures refused { IfErr result (λ e. e ≡ refusal.Memory) }
    ensures unchanged { OnErr result (txns.new ≡ txns.old) }
{
    match txns.push_call(call) {
        Ok(()) => Ok(()),
        Err(_) => Err(LineRefusal::Memory),
    }
}

/// Adds the call to a client's transactions, where it may come next.
fn add_call(txns: &mut Txns, call: Call, alloc: Global) -> Result<(), LineRefusal>
    requires { AreTransactions txns.old }
    ensures added { OnOk result (MayFollow (all_calls txns.old) call × IsExtended txns.old call txns.new) }
    ensures refused { IfErr result (λ e. TellsWhether e (MayFollow (all_calls txns.old) call)) }
    ensures unchanged { OnErr result (txns.new ≡ txns.old) }
{
    match (is_first(call), is_between(txns)) {
        (true, true) => begin(txns, alloc),
        (false, false) => go_on(txns, call),
        (true, false) => Err(LineRefusal::NotAllowed),
        (false, true) => Err(LineRefusal::NotAllowed),
    }
}

/// The transactions of a client that begins its first one.
fn first_begun(alloc: Global) -> Result<Txns, LineRefusal>
    ensures begun { IfOk result (λ txns. txns ≡ [] ∷ []) }
    ensures refused { IfErr result (λ e. e ≡ refusal.Memory) }
{
    let mut txns = Txns::new(alloc);
    begin(&mut txns, alloc)?;
    Ok(txns)
}

/// Adds the script of a client whose first line this is, where that begins a transaction.
pub(crate) fn add_first(
    scripts: &mut Vec<ClientScript>,
    client: u8,
    call: Call,
    alloc: Global,
) -> Result<(), LineRefusal>
    ensures added { OnOk result ((is_first call ≡ true) × (scripts.new.items ≡ scripts.old.items ++ begun client ∷ [])) }
    ensures refused { IfErr result (λ e. TellsWhether e (is_first call ≡ true)) }
    ensures unchanged { OnErr result (scripts.new.items ≡ scripts.old.items) }
{
    if !is_first(call) {
        return Err(LineRefusal::NotAllowed);
    }
    let txns = first_begun(alloc)?;
    match scripts.push(ClientScript { pass: client, txns }) {
        Ok(()) => Ok(()),
        Err(_) => Err(LineRefusal::Memory),
    }
}

/// Adds the call to the script at this place, where it may come next.
pub(crate) fn add_at(
    scripts: &mut Vec<ClientScript>,
    place: usize,
    call: Call,
    alloc: Global,
) -> Result<(), LineRefusal>
    requires within { place < length scripts.old.items }
    requires each { AllByRecursion IsScript scripts.old.items }
    ensures added { OnOk result (ExtendsAt scripts.old.items place call scripts.new.items) }
    ensures refused { IfErr result (λ e. TellsAt scripts.old.items place call e) }
    ensures unchanged { OnErr result (scripts.new.items ≡ scripts.old.items) }
{
    add_call(&mut scripts[place].txns, call, alloc)
}

/// The place of the first script of the client.
fn position_of(scripts: &[ClientScript], client: u8) -> Option<usize>
    ensures { result ≡ position (λ s. s.pass == client) scripts.now }
{
    scripts.iter().position(|script| script.pass == client)
}

/// Where the script of the client stands, if it has one.
pub(crate) fn place_of(scripts: &[ClientScript], client: u8) -> Option<usize>
    ensures { MatchOption result (IsNobody client scripts.now) (IsAt client scripts.now) }
{
    position_of(scripts, client)
}
