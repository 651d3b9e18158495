//! The verdict of a checker.
ghost use Rattle.std.specs.Prelude.{◌≡◌, ℕ, List, Some, IfOk, IsErrOf};
ghost use Rattle.cell_page.specs.Format.{IsSlotCount};
ghost use Rattle.log_replay.specs.Finishes.{AreNoneAwaited};
ghost use Rattle.ship_stream.specs.declared.refusal.FeedRefusal.TheVariants.{Damaged, Memory as SpentMemory};
ghost use Rattle.standby.specs.Promoted.{IsUnsoundAt, LacksBase};
ghost use Rattle.log_checker.specs.declared.refusal.CheckRefusal.{CheckRefusal as Refusal};
ghost use Rattle.log_checker.specs.declared.refusal.CheckRefusal.TheVariants.{NoBase, Unsound, Memory};
ghost use Rattle.log_checker.specs.Feeds.{Follows};
ghost use Rattle.log_checker.specs.Verdicts.{IsVerdict, LeadsToBoth, IsOfBase};

use crate::checker::Checker;
use crate::difference::least_difference;
use crate::gathered::Sides;
use crate::refusal::CheckRefusal;
use crate::settled::settled_graph;
use crate::verdict::Verdict;

impl<const SLOTS: usize> Checker<SLOTS> {
    /// What the whole batches made of the base, and their fold. No `feed` answered that the stream is damaged.
    ///
    /// [`CheckRefusal::NoBase`] comes exactly where the number of pages and the pages are not all there, and
    /// [`CheckRefusal::Memory`] where a `feed` ran out of memory.
    fn into_sides(self) -> Result<Sides<SLOTS>, CheckRefusal>
        requires undamaged { (at : ℕ) → self.refused ≡ Some (Damaged at) → ⊥ }
        ensures leads { (bytes : List ℕ) → Follows bytes self.entry → IfOk result (λ s. LeadsToBoth SLOTS bytes s.replay s.tally) }
        ensures skips { IfOk result (λ s. AreNoneAwaited s.replay.skips) }
        ensures slots { IsSlotCount SLOTS }
        ensures base { (bytes : List ℕ) (len : ℕ) → Follows bytes self.entry → IsErrOf result (NoBase len) → LacksBase SLOTS bytes len }
        ensures spent { self.entry.refused ≡ Some SpentMemory → IsErrOf result Memory }
        ensures refusals { (e : Refusal) → IsErrOf result e → IsOfBase e }
    {
        if self.refused.is_some() {
            return Err(CheckRefusal::Memory);
        }
        if let Some(len) = self.feed.len_without_base() {
            return Err(CheckRefusal::NoBase { len });
        }
        match self.gathered.into_sides() {
            Some(sides) => Ok(sides),
            None => unreachable!(),
        }
    }

    /// The verdict on the bytes that the checker was fed with: what has not ended in the whole batches is undone, and the graph of
    /// the cells then is compared with the fold of the commits. No `feed` answered that the stream is damaged.
    ///
    /// [`CheckRefusal::NoBase`] comes exactly where the number of pages and the pages are not all there, and
    /// [`CheckRefusal::Unsound`] exactly where the cells break a store rule, or an undo can't be done. [`CheckRefusal::Memory`] comes
    /// out of memory, and where a `feed` answered so.
    pub fn verdict(self) -> Result<Verdict, CheckRefusal>
        requires undamaged { (at : ℕ) → self.refused ≡ Some (Damaged at) → ⊥ }
        ensures verdict { (bytes : List ℕ) → Follows bytes self.entry → IfOk result (IsVerdict SLOTS bytes) }
        ensures unsound { (bytes : List ℕ) (id rule : ℕ) → Follows bytes self.entry → IsErrOf result (Unsound id rule) → IsUnsoundAt SLOTS bytes id rule }
        ensures base { (bytes : List ℕ) (len : ℕ) → Follows bytes self.entry → IsErrOf result (NoBase len) → LacksBase SLOTS bytes len }
        ensures spent { self.entry.refused ≡ Some SpentMemory → IsErrOf result Memory }
    {
        let alloc = self.alloc;
        let sides = match self.into_sides() {
            Ok(sides) => sides,
            Err(refusal) => return Err(refusal),
        };
        let stored = match settled_graph(alloc, sides.replay) {
            Ok(graph) => graph,
            Err(refusal) => return Err(refusal),
        };
        let folded = match sides.tally.graph(alloc) {
            Ok(graph) => graph,
            Err(_) => return Err(CheckRefusal::Memory),
        };
        match least_difference(alloc, &stored, &folded) {
            Ok(differs) => Ok(Verdict {
                commits: sides.tally.commits(),
                differs,
            }),
            Err(_) => Err(CheckRefusal::Memory),
        }
    }
}
