//! The work of one client.
ghost use Rattle.std.specs.Prelude.{◌≡◌, false};
ghost use Rattle.shared_store.specs.Passes.{IsClient};
ghost use Rattle.client_pass.specs.Scripts.{AreInRange};
ghost use Rattle.client_pass.specs.Workings.{DoesTransactions, EndsWork, refused_by_work};

use crate::attempts::transact;
use crate::ends::WorkEnd;
use crate::gate::Gate;
use crate::script::ClientScript;
use disk_model::Disk;
use shared_store::{Pass, Store};
use std::sync::Wait;

/// Does the client's transactions, one after another.
///
/// It makes no calls but those of its attempts, undoes writes only directly before an abort that is done, and enters nothing else
/// into the history: at `WorkEnd::Finished` the attempts at all transactions, and else the beginning of such, in whose midst a
/// transaction may be left open. Any other end names what the store answered this pass last.
pub fn work<const SLOTS: usize, D: Disk, G: Gate, R: Wait>(
    rt: &R,
    store: &Store<SLOTS, D>,
    pass: &mut Pass<SLOTS, D>,
    script: &ClientScript,
    gate: &G,
) -> WorkEnd
    requires of { pass.old.table ≡ store.now.table }
    requires client { IsClient script.now.pass × (pass.old.view.station.name ≡ script.now.pass) }
    requires none { pass.old.view.knowledge.truth ≡ false }
    requires in_range { AreInRange SLOTS script.now.txns }
    ensures of { pass.new.table ≡ store.now.table }
    ensures does { DoesTransactions pass.old.view pass.new.view script.now.txns result }
    ensures end { (result ≡ WorkEnd.Finished → ⊥) → EndsWork D SLOTS D.content D.may_leave D.faults D.moment D.left_since pass.new.view result }
    ensures refused { pass.new.refused ≡ refused_by_work result pass.old.refused }
{
    let mut count = 0;
    'transactions: for calls in script.txns.items() {
        if let Err(end) = transact(rt, store, pass, calls.items(), gate, &mut count) {
            return end;
        }
    }
    WorkEnd::Finished
}
