//! The promotion of a standby.
ghost use Rattle.std.specs.Prelude.{◌≡◌, ◌≢◌, ℕ, List, Some, IfOk, IfErr, IsErrOf};
ghost use Rattle.cell_page.specs.Format.{IsSlotCount};
ghost use Rattle.log_replay.specs.Finishes.{AreNoneAwaited};
ghost use Rattle.disk_model.specs.Time.{LeavesOnlyImages};
ghost use Rattle.ship_stream.specs.declared.refusal.FeedRefusal.TheVariants.{Damaged, Memory as SpentMemory};
ghost use Rattle.standby.specs.declared.refusals.PromoteRefusal.{PromoteRefusal as Refusal};
ghost use Rattle.standby.specs.declared.refusals.PromoteRefusal.TheVariants.{Disk, Unsound, Memory, NoBase};
ghost use Rattle.standby.specs.Feeds.{Follows};
ghost use Rattle.standby.specs.Settled.{IsOfBase};
ghost use Rattle.standby.specs.Promoted.{LeadsTo, PromotesTo, IsUnsoundAt, LacksBase, IsPromoted, IsPromoting, HasPromoteCause};

use crate::promoted::Promoted;
use crate::refusals::PromoteRefusal;
use crate::settling::settle;
use crate::standby::Standby;
use disk_model::Disk;
use log_replay::Replay;
use restart_store::{InitRefusal, init_with};

impl<const SLOTS: usize> Standby<SLOTS> {
    /// The base after the records of the whole batches. No `feed` answered that the stream is damaged.
    ///
    /// [`PromoteRefusal::NoBase`] comes exactly where the number of pages and the pages are not all there, and
    /// [`PromoteRefusal::Memory`] where a `feed` ran out of memory.
    fn into_base(self) -> Result<Replay<SLOTS>, PromoteRefusal>
        requires undamaged { (at : ℕ) → self.refused ≡ Some (Damaged at) → ⊥ }
        ensures leads { (bytes : List ℕ) → Follows bytes self.entry → IfOk result (LeadsTo SLOTS bytes self.entry.gathered.batches) }
        ensures skips { IfOk result (λ v. AreNoneAwaited v.skips) }
        ensures slots { IsSlotCount SLOTS }
        ensures base { (bytes : List ℕ) (len : ℕ) → Follows bytes self.entry → IsErrOf result (NoBase len) → LacksBase SLOTS bytes len }
        ensures spent { self.entry.refused ≡ Some SpentMemory → IsErrOf result Memory }
        ensures refusals { (e : Refusal) → IsErrOf result e → IsOfBase e }
    {
        if self.refused.is_some() {
            return Err(PromoteRefusal::Memory);
        }
        if let Some(len) = self.feed.len_without_base() {
            return Err(PromoteRefusal::NoBase { len });
        }
        let Some(replay) = self.gathered.into_replay() else {
            unreachable!()
        };
        Ok(replay)
    }

    /// Makes the disk anew as the store that the bytes make which the standby was fed with, whatever it held: what has not ended in
    /// the whole batches is undone. No `feed` answered that the stream is damaged.
    ///
    /// At `Ok` whatever a power loss leaves of the disk opens to that store. At each moment a power loss leaves what opens as what it
    /// left before, or no store, or that store, whatever is answered.
    ///
    /// [`PromoteRefusal::NoBase`] comes exactly where the number of pages and the pages are not all there, and
    /// [`PromoteRefusal::Unsound`] exactly where the cells break a store rule. [`PromoteRefusal::Disk`] comes only where the disk's
    /// count of faults rose in this call; before each other refusal no call of the disk is made. [`PromoteRefusal::Memory`] comes out
    /// of memory, and where a `feed` answered so.
    pub fn promote<D: Disk>(self, disk: D) -> (Result<Promoted, PromoteRefusal>, D)
        requires undamaged { (at : ℕ) → self.refused ≡ Some (Damaged at) → ⊥ }
        ensures promoted { (bytes : List ℕ) → Follows bytes self.entry → IfOk result.0 (IsPromoted D.may_leave SLOTS bytes result.1) }
        ensures moments { (bytes : List ℕ) → Follows bytes self.entry → LeavesOnlyImages D.moment D.left_since disk result.1 (IsPromoting D.may_leave SLOTS disk bytes) }
        ensures unsound { (bytes : List ℕ) (id rule : ℕ) → Follows bytes self.entry → IsErrOf result.0 (Unsound id rule) → IsUnsoundAt SLOTS bytes id rule }
        ensures base { (bytes : List ℕ) (len : ℕ) → Follows bytes self.entry → IsErrOf result.0 (NoBase len) → LacksBase SLOTS bytes len }
        ensures spent { self.entry.refused ≡ Some SpentMemory → IsErrOf result.0 Memory }
        ensures failed { (bytes : List ℕ) → Follows bytes self.entry → IsErrOf result.0 Disk → (batches : ℕ) × (cells : _) × PromotesTo SLOTS bytes batches cells }
        ensures uncalled { IfErr result.0 (λ e. e ≢ Disk → result.1 ≡ disk) }
        ensures cause { HasPromoteCause (D.faults disk) (D.faults result.1) result.0 }
    {
        let mut disk = disk;
        let alloc = self.alloc;
        let batches = self.batches();
        let replay = match self.into_base() {
            Ok(replay) => replay,
            Err(refusal) => return (Err(refusal), disk),
        };
        let settled = match settle(alloc, replay) {
            Ok(settled) => settled,
            Err(refusal) => return (Err(refusal), disk),
        };
        match init_with(&mut disk, &settled.pages) {
            Ok(()) => {
                let stored = settled.stored;
                (Ok(Promoted { batches, stored }), disk)
            }
            Err(InitRefusal::Disk) => (Err(PromoteRefusal::Disk), disk),
        }
    }
}
