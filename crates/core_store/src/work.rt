//! What the calls and the undo steps work on, and the pages which that needs.
ghost use Rattle.std.specs.Prelude.{◌≡◌, ℕ, None};
ghost use Rattle.plain_model.specs.Graphs.{FitsPlace};
ghost use Rattle.plain_model.specs.Machine.{IsInRange};
ghost use Rattle.store_model.specs.Core.{Core};
ghost use Rattle.core_store.specs.Transactions.{running_at};
ghost use Rattle.core_store.specs.Frames.{Agree, IsNext, pages_held};
ghost use Rattle.core_store.specs.Logged.{want_of, pages_for, pages_for_undo};
ghost use Rattle.core_store.specs.Replaced.{next_to_restore};
ghost use Rattle.core_store.specs.Work.{work_of, work_of_undo, pages_of_work, IsWorkIn};
ghost use Rattle.core_store.specs.Views.{view_of};
ghost use Rattle.core_store.specs.Stands.{Stands};

use crate::plan::Plan;
use crate::tables::Tables;
use crate::three::Three;
use crate::transactions;
use crate::want::{Want, Work, wanted};
use plain_model::{Call, Place, Write};

impl<const SLOTS: usize> Tables<SLOTS> {
    /// What the call works on: nothing where it is refused.
    pub(crate) fn work(&self, pass: u8, call: &Call) -> Option<Work>
        requires in_range { IsInRange SLOTS call.now }
        requires no_abort { call.now ≡ Call.Abort → running_at self.now.transactions.entries pass ≡ None }
        ensures works { (c : Core) → Stands SLOTS (view_of self.now) c → IsWorkIn SLOTS self.now.ids c.cells result }
        ensures pages { (c : Core) → Stands SLOTS (view_of self.now) c → pages_of_work c.cells result ≡ pages_for c.moment.state c.cells pass call.now }
    {
        match self.plan(pass, call) {
            Ok(plan) => work_of(plan),
            Err(_) => None,
        }
    }

    /// What the next abort step of the client works on: nothing where it ends the transaction.
    pub(crate) fn undo_work(&self, pass: u8) -> Option<Work>
        requires standing { (c : Core) × Stands SLOTS (view_of self.now) c }
        ensures works { (c : Core) → Stands SLOTS (view_of self.now) c → IsWorkIn SLOTS self.now.ids c.cells result }
        ensures pages { (c : Core) → Stands SLOTS (view_of self.now) c → pages_of_work c.cells result ≡ pages_for_undo c.cells (next_to_restore c.moment pass) }
    {
        match transactions::last_replaced(&self.transactions, pass) {
            Some(replaced) => Some(work_of_undo(replaced)),
            None => None,
        }
    }

    /// What is to be done with the held pages before this can be worked on.
    pub(crate) fn wants(&self, work: Option<Work>, held: &Three<SLOTS>) -> Want
        requires standing { (c : Core) × Stands SLOTS (view_of self.now) c × Agree c.cells held.now × IsWorkIn SLOTS self.now.ids c.cells work }
        ensures exact { (c : Core) → Stands SLOTS (view_of self.now) c → Agree c.cells held.now → result ≡ want_of (pages_of_work c.cells work) (pages_held held.now) }
        ensures next { (page : ℕ) → result ≡ Want.Page page → IsNext self.now.ids held.now page }
    {
        wanted(held, work)
    }
}

/// The object on which a plan works, if there is one.
fn work_of(plan: Plan) -> Option<Work>
    ensures { result ≡ work_of plan }
{
    match plan {
        Plan::Begin | Plan::Release { .. } | Plan::Commit => None,
        Plan::Read { id, .. } | Plan::Make { id, .. } | Plan::Get { id } | Plan::Set { id, .. } => {
            Some(Work { id, change: None })
        }
        Plan::Store { id, slot, target } => Some(Work {
            id,
            change: Some((slot, target)),
        }),
    }
}

/// The object on which an undo step works that lays this again.
fn work_of_undo(replaced: Write) -> Work
    requires { FitsPlace replaced.place replaced.value }
    ensures { result ≡ work_of_undo replaced }
{
    let change = match replaced.place {
        Place::Slot(slot) => Some((slot, replaced.value as u32)),
        Place::Payload | Place::Whole => None,
    };
    Work {
        id: replaced.id,
        change,
    }
}
