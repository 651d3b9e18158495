//! What is made of the parts of a stream.
ghost use Rattle.std.specs.Prelude.{◌≡◌, ◌+◌, ◌<◌, ◌^◌, ◌++◌, ◌∷◌, [], ℕ, List, None, Some, IfOk, OnOk, IsErrOf};
ghost use Rattle.cell_page.specs.Format.{IsSlotCount};
ghost use Rattle.log_record.specs.declared.record.Record.{Record};
ghost use Rattle.log_replay.specs.Inside.{AreStorePages};
ghost use Rattle.log_replay.specs.Replays.{Replaying};
ghost use Rattle.ship_stream.specs.declared.refusal.FeedRefusal.TheVariants.{Damaged};
ghost use Rattle.ship_stream.specs.Reading.{Reading, Nothing, IsReading, with_page};
ghost use Rattle.ship_stream.specs.Feeding.{Adds};
ghost use Rattle.ship_stream.specs.Runs.{AreRecords};
ghost use Rattle.standby.specs.Following.{AllFit, StopsFitting, over_base, after_all, Has};
ghost use Rattle.standby.specs.Taking.{Awaits, StopsIn};

use crate::feeding::take_records;
use cell_page::Page;
use log_replay::Replay;
use ship_stream::{FeedRefusal, Part, Records};
use std::alloc::Global;
use std::marker::Model;
use std::mem;

/// What is made of the parts of a stream that came whole.
#[derive(Drop)]
pub(crate) struct Gathered<const SLOTS: usize> {
    /// How many pages the stream has.
    count: u16,
    /// Those that came, until all are there.
    pages: Vec<Page<SLOTS>>,
    /// From then on, what the records of the whole batches made of them.
    replay: Option<Replay<SLOTS>>,
    batches: u64,
}

/// Contracts see the pages and what became of them.
impl<const SLOTS: usize> Model for Gathered<SLOTS> {
    ghost use Rattle.standby.specs.Following.{Gathering};

    ghost Value = { Gathering SLOTS };

    ghost view = { λ g. record { count = g.count; pages = g.pages.items; replaying = g.replay; batches = g.batches } };
}

/// A replay over the pages of a base, of which no image is awaited.
fn over_pages<const SLOTS: usize>(
    alloc: Global,
    pages: Vec<Page<SLOTS>>,
) -> Result<Replay<SLOTS>, FeedRefusal>
    requires { AreStorePages pages.items }
    ensures over { IfOk result (λ replay. replay ≡ over_base pages.entry.items) }
    ensures refusals { (at : ℕ) → IsErrOf result (Damaged at) → ⊥ }
{
    let skips = vec![in alloc; 0; pages.len()]?;
    Ok(Replay::over(alloc, pages, skips))
}

impl<const SLOTS: usize> Gathered<SLOTS> {
    /// Nothing came yet. It takes no memory.
    pub(crate) fn new(alloc: Global) -> Gathered<SLOTS>
        ensures { Has Nothing result }
    {
        Gathered {
            count: 0,
            pages: Vec::new(alloc),
            replay: None,
            batches: 0,
        }
    }

    /// How many batches came whole.
    pub(crate) fn batches(&self) -> u64
        ensures { result ≡ self.now.batches }
    {
        self.batches
    }

    /// What the records made of the pages, where all are there.
    pub(crate) fn into_replay(self) -> Option<Replay<SLOTS>>
        ensures { result ≡ self.entry.replaying }
    {
        self.replay
    }

    /// The next page came.
    fn take_page(&mut self, alloc: Global, page: Page<SLOTS>) -> Result<(), FeedRefusal>
        requires slots { IsSlotCount SLOTS }
        requires reading { IsReading (with_page self.old.count (self.old.pages ++ page ∷ [])) }
        requires none { (self.old.replaying ≡ None) × (self.old.batches ≡ 0) }
        ensures took { OnOk result (Has (with_page self.old.count (self.old.pages ++ page.entry ∷ [])) self.new) }
        ensures refusals { (at : ℕ) → IsErrOf result (Damaged at) → ⊥ }
    {
        if self.pages.push(page).is_err() {
            return Err(FeedRefusal::Memory);
        }
        if self.pages.len() != self.count as usize {
            return Ok(());
        }
        let pages = mem::replace(&mut self.pages, Vec::new(alloc));
        self.replay = Some(over_pages(alloc, pages)?);
        Ok(())
    }

    /// The next batch came. Hands its records out again, which are done with.
    fn take_batch(&mut self, mut records: Records<SLOTS>) -> Result<Records<SLOTS>, FeedRefusal>
        requires slots { IsSlotCount SLOTS }
        requires there { (v : Replaying) × (self.old.replaying ≡ Some v) }
        requires few { self.old.batches + 1 < 2 ^ 64 }
        ensures took { (v : Replaying) (rs : List (Record SLOTS)) → self.old.replaying ≡ Some v → AreRecords rs records.entry
            → OnOk result (AllFit v rs × (self.new.replaying ≡ Some (after_all v rs)) × (self.new.batches ≡ self.old.batches + 1)) }
        ensures damaged { (v : Replaying) (rs : List (Record SLOTS)) (at : ℕ) → self.old.replaying ≡ Some v → AreRecords rs records.entry → IsErrOf result (Damaged at)
            → StopsFitting v rs records.entry.at at }
    {
        match &mut self.replay {
            Some(replay) => match take_records(replay, &mut records) {
                Ok(()) => {
                    self.batches += 1;
                    Ok(records)
                }
                Err(refusal) => Err(refusal),
            },
            None => unreachable!(),
        }
    }

    /// The next part came. Its records, if it is a batch, are handed out again, done to the base.
    ///
    /// [`FeedRefusal::Damaged`] is at the first record that doesn't fit, exactly where there is one.
    pub(crate) fn take(
        &mut self,
        alloc: Global,
        part: Part<SLOTS>,
    ) -> Result<Option<Records<SLOTS>>, FeedRefusal>
        requires slots { IsSlotCount SLOTS }
        requires awaited { Awaits self.old part }
        ensures took { (r next : Reading SLOTS) → Has r self.old → Adds part.entry r next → IsReading next → OnOk result (Has next self.new) }
        ensures damaged { (r next : Reading SLOTS) (at : ℕ) → Has r self.old → Adds part.entry r next → IsReading next → IsErrOf result (Damaged at) → StopsIn r next at }
    {
        match part {
            Part::Pages(count) => {
                self.count = count;
                Ok(None)
            }
            Part::Page(page) => match self.take_page(alloc, Box::into_inner(page)) {
                Ok(()) => Ok(None),
                Err(refusal) => Err(refusal),
            },
            Part::Batch { records, .. } => match self.take_batch(records) {
                Ok(records) => Ok(Some(records)),
                Err(refusal) => Err(refusal),
            },
        }
    }
}
