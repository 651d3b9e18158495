//! What a power loss leaves of a store.
ghost use Rattle.std.specs.Prelude.{◌≡◌, ◌⊎◌, ℕ, ◌+◌, length, Some, None};
ghost use Rattle.plain_model.specs.declared.calls.Call.TheVariants.{Commit};
ghost use Rattle.plain_model.specs.Machine.{step};
ghost use Rattle.plain_model.specs.History.{end_of};
ghost use Rattle.disk_model.specs.Told.{EachImage};
ghost use Rattle.restart_laws.specs.Settled.{IsSettled};
ghost use Rattle.stored_map.specs.Stores.{state_in, IsKnown, OpensToSame};

use crate::SLOTS;
use disk_model::Disk;
use shared_store::LoneStore;

/// Hands out what is known: the state is sound; a power loss leaves what the root reaches in the committed graph, or, where the disk failed
/// a commit, perhaps what it reaches in the graph which the commit was to leave.
pub(crate) fn know_left<D: Disk>(store: &LoneStore<SLOTS, D>)
    ensures known { IsKnown (state_in store.now) }
    ensures sized { length store.now.journal.opening ≡ (state_in store.now).ids + 1 }
    ensures settled { IsSettled (end_of store.now.journal.history) }
    ensures left { store.now.failed ≡ None → EachImage D.may_leave store.now.disk (OpensToSame (state_in store.now).ids (state_in store.now).committed) }
    ensures either { (client faults : ℕ) → store.now.failed ≡ Some (record { commit = Some client; faults = faults })
        → EachImage D.may_leave store.now.disk (λ image. OpensToSame (state_in store.now).ids (state_in store.now).committed image ⊎ OpensToSame (state_in store.now).ids (step (state_in store.now) client Commit).1.committed image) }
{
    // What the history is, and what a power loss may leave: these calls hand the facts out.
    let logged = store.logged();
    let _ = logged.durable();
    let _ = logged.journal().history();
}
