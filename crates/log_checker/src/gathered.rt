//! What is made of the parts of a stream.
ghost use Rattle.std.specs.Prelude.{◌≡◌, ◌+◌, ◌<◌, ◌^◌, ◌++◌, ◌∷◌, ◌⊎◌, [], ℕ, List, None, Some, IfOk, OnOk, IfSome, IfNone, IsErrOf};
ghost use Rattle.cell_page.specs.Format.{IsSlotCount};
ghost use Rattle.log_record.specs.declared.record.Record.{Record};
ghost use Rattle.log_replay.specs.Inside.{cells_of_pages, AreStorePages};
ghost use Rattle.log_replay.specs.Replays.{Replaying};
ghost use Rattle.ship_stream.specs.declared.refusal.FeedRefusal.TheVariants.{Damaged};
ghost use Rattle.ship_stream.specs.Reading.{Reading, Nothing, IsReading, with_page};
ghost use Rattle.ship_stream.specs.Feeding.{Adds};
ghost use Rattle.ship_stream.specs.Runs.{AreRecords};
ghost use Rattle.standby.specs.Following.{AllFit, StopsFitting, over_base, after_all, Has};
ghost use Rattle.standby.specs.Taking.{StopsIn};
ghost use Rattle.log_checker.specs.Tallies.{Tallying, Tells};
ghost use Rattle.log_checker.specs.Checking.{HasBoth};
ghost use Rattle.log_checker.specs.Taking.{Awaits, IsBeside, TellsMore};

use crate::feeding::take_records;
use crate::tally::Tally;
use cell_page::Page;
use log_replay::Replay;
use ship_stream::{FeedRefusal, Part, Records};
use std::alloc::Global;
use std::marker::Model;
use std::mem;

/// What is made of the parts of a stream that came whole.
#[derive(Drop)]
pub(crate) struct Gathered<const SLOTS: usize> {
    /// How many pages the stream has.
    count: u16,
    /// Those that came, until all are there.
    pages: Vec<Page<SLOTS>>,
    /// From then on, what the records of the whole batches made of them, and the plain fold of these records.
    replay: Option<Replay<SLOTS>>,
    tally: Option<Tally<SLOTS>>,
    batches: u64,
}

/// Contracts see the pages and what became of them, and the fold.
impl<const SLOTS: usize> Model for Gathered<SLOTS> {
    ghost use Rattle.log_checker.specs.Checking.{Checked};

    ghost Value = { Checked SLOTS };

    ghost view = { λ g. record { gathered = record { count = g.count; pages = g.pages.items; replaying = g.replay; batches = g.batches }; tally = g.tally } };
}

/// What the records of the whole batches made of a base, and the plain fold of these records.
#[derive(Drop)]
pub(crate) struct Sides<const SLOTS: usize> {
    pub(crate) replay: Replay<SLOTS>,
    pub(crate) tally: Tally<SLOTS>,
}

/// A replay over the pages of a base, and a tally over their objects.
fn over_pages<const SLOTS: usize>(
    alloc: Global,
    pages: Vec<Page<SLOTS>>,
) -> Result<Sides<SLOTS>, FeedRefusal>
    requires slots { IsSlotCount SLOTS }
    requires pages { AreStorePages pages.items }
    ensures over { IfOk result (λ s. s.replay ≡ over_base pages.entry.items) }
    ensures tally { IfOk result (λ s. Tells {slots = SLOTS} (cells_of_pages pages.entry.items) [] s.tally) }
    ensures refusals { (at : ℕ) → IsErrOf result (Damaged at) → ⊥ }
{
    let skips = vec![in alloc; 0; pages.len()]?;
    let replay = Replay::over(alloc, pages, skips);
    let tally = Tally::over(alloc, &replay)?;
    Ok(Sides { replay, tally })
}

impl<const SLOTS: usize> Gathered<SLOTS> {
    /// Nothing came yet. It takes no memory.
    pub(crate) fn new(alloc: Global) -> Gathered<SLOTS>
        ensures { HasBoth Nothing result }
    {
        Gathered {
            count: 0,
            pages: Vec::new(alloc),
            replay: None,
            tally: None,
            batches: 0,
        }
    }

    /// What the records made of the pages, where all are there, and the fold of these records.
    pub(crate) fn into_sides(self) -> Option<Sides<SLOTS>>
        ensures replay { IfSome result (λ s. self.entry.gathered.replaying ≡ Some s.replay) }
        ensures tally { IfSome result (λ s. self.entry.tally ≡ Some s.tally) }
        ensures none { IfNone result ((self.entry.gathered.replaying ≡ None) ⊎ (self.entry.tally ≡ None)) }
    {
        let Gathered { replay, tally, .. } = self;
        match replay {
            Some(replay) => match tally {
                Some(tally) => Some(Sides { replay, tally }),
                None => None,
            },
            None => None,
        }
    }

    /// The next page came.
    fn take_page(&mut self, alloc: Global, page: Page<SLOTS>) -> Result<(), FeedRefusal>
        requires slots { IsSlotCount SLOTS }
        requires reading { IsReading (with_page self.old.gathered.count (self.old.gathered.pages ++ page ∷ [])) }
        requires none { (self.old.gathered.replaying ≡ None) × (self.old.gathered.batches ≡ 0) × (self.old.tally ≡ None) }
        ensures took { OnOk result (HasBoth (with_page self.old.gathered.count (self.old.gathered.pages ++ page.entry ∷ [])) self.new) }
        ensures refusals { (at : ℕ) → IsErrOf result (Damaged at) → ⊥ }
    {
        if self.pages.push(page).is_err() {
            return Err(FeedRefusal::Memory);
        }
        if self.pages.len() != self.count as usize {
            return Ok(());
        }
        let pages = mem::replace(&mut self.pages, Vec::new(alloc));
        let sides = over_pages(alloc, pages)?;
        self.replay = Some(sides.replay);
        self.tally = Some(sides.tally);
        Ok(())
    }

    /// The next batch came. Hands its records out again, which are done with.
    fn take_batch(&mut self, mut records: Records<SLOTS>) -> Result<Records<SLOTS>, FeedRefusal>
        requires slots { IsSlotCount SLOTS }
        requires there { (v : Replaying) × (t : Tallying) × (self.old.gathered.replaying ≡ Some v) × (self.old.tally ≡ Some t) × IsBeside v t records }
        requires few { self.old.gathered.batches + 1 < 2 ^ 64 }
        ensures took { (v : Replaying) (rs : List (Record SLOTS)) → self.old.gathered.replaying ≡ Some v → AreRecords rs records.entry
            → OnOk result (AllFit v rs × (self.new.gathered.replaying ≡ Some (after_all v rs)) × (self.new.gathered.batches ≡ self.old.gathered.batches + 1)) }
        ensures told { (t : Tallying) (rs : List (Record SLOTS)) → self.old.tally ≡ Some t → AreRecords rs records.entry
            → OnOk result ((u : Tallying) × (self.new.tally ≡ Some u) × TellsMore rs t u) }
        ensures damaged { (v : Replaying) (rs : List (Record SLOTS)) (at : ℕ) → self.old.gathered.replaying ≡ Some v → AreRecords rs records.entry → IsErrOf result (Damaged at)
            → StopsFitting v rs records.entry.at at }
    {
        match &mut self.replay {
            Some(replay) => match &mut self.tally {
                Some(tally) => match take_records(replay, tally, &mut records) {
                    Ok(()) => {
                        self.batches += 1;
                        Ok(records)
                    }
                    Err(refusal) => Err(refusal),
                },
                None => unreachable!(),
            },
            None => unreachable!(),
        }
    }

    /// The next part came. Its records, if it is a batch, are handed out again, done to the base and to the fold.
    ///
    /// [`FeedRefusal::Damaged`] is at the first record that doesn't fit, exactly where there is one.
    pub(crate) fn take(
        &mut self,
        alloc: Global,
        part: Part<SLOTS>,
    ) -> Result<Option<Records<SLOTS>>, FeedRefusal>
        requires slots { IsSlotCount SLOTS }
        requires awaited { Awaits self.old part }
        ensures took { (r next : Reading SLOTS) → HasBoth r self.old → Adds part.entry r next → IsReading next → OnOk result (HasBoth next self.new) }
        ensures damaged { (r next : Reading SLOTS) (at : ℕ) → Has r self.old.gathered → Adds part.entry r next → IsReading next → IsErrOf result (Damaged at) → StopsIn r next at }
    {
        match part {
            Part::Pages(count) => {
                self.count = count;
                Ok(None)
            }
            Part::Page(page) => match self.take_page(alloc, Box::into_inner(page)) {
                Ok(()) => Ok(None),
                Err(refusal) => Err(refusal),
            },
            Part::Batch { records, .. } => match self.take_batch(records) {
                Ok(records) => Ok(Some(records)),
                Err(refusal) => Err(refusal),
            },
        }
    }
}
