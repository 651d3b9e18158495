//! A store made of a replay: its rules are tested, and what has not ended is undone.
ghost use Rattle.std.specs.Prelude.{◌≡◌, ℕ, ◌*◌, List, length, IfOk, OnOk, IsErrOf};
ghost use Rattle.cell_model.specs.Consistent.{AreConsistent};
ghost use Rattle.cell_page.specs.Format.{IsSlotCount, IsPage, AreTyped};
ghost use Rattle.log_replay.specs.Finishes.{AreNoneAwaited};
ghost use Rattle.log_replay.specs.Inside.{AreStorePages};
ghost use Rattle.opened_images.specs.Opened.{KeepsRules, RestartsStuckAt};
ghost use Rattle.restart_laws.specs.Restored.{restored, CanRestart};
ghost use Rattle.restart_laws.specs.Rules.{IsFirstBroken};
ghost use Rattle.restart_store.specs.Fresh.{MayBeMade};
ghost use Rattle.standby.specs.declared.refusals.PromoteRefusal.{PromoteRefusal as Refusal};
ghost use Rattle.standby.specs.declared.refusals.PromoteRefusal.TheVariants.{Unsound};
ghost use Rattle.standby.specs.Promoted.{BreaksAt};
ghost use Rattle.standby.specs.Settled.{IsSettled, IsOfCells};

use crate::refusals::PromoteRefusal;
use crate::stored::stored_ids;
use cell_page::{CELLS_OF_PAGE, Page, first_id};
use log_replay::Replay;
use page_marks::PageMarks;
use plain_model::Ids;
use std::alloc::Global;
use store_opening::{UndoRefusal, first_broken, undo_all};

/// The pages of a store in which nothing is open, and the ids of its objects.
#[derive(Drop)]
pub struct Settled<const SLOTS: usize> {
    /// The pages, in order.
    pub pages: Vec<Page<SLOTS>>,
    /// The ids of the objects, ascending.
    pub stored: Ids,
}

/// Tests the first four store rules.
fn keep_rules<const SLOTS: usize>(
    alloc: Global,
    replay: &Replay<SLOTS>,
) -> Result<(), PromoteRefusal>
    ensures kept { OnOk result (KeepsRules replay.now.cells × AreConsistent SLOTS (8 * length replay.now.skips) replay.now.cells) }
    ensures unsound { (id rule : ℕ) → IsErrOf result (Unsound id rule) → IsFirstBroken replay.now.cells rule id }
    ensures refusals { (e : Refusal) → IsErrOf result e → IsOfCells e }
{
    match first_broken(alloc, replay) {
        Ok(None) => Ok(()),
        Ok(Some(broken)) => Err(PromoteRefusal::Unsound {
            id: broken.id,
            rule: broken.rule,
        }),
        Err(_) => Err(PromoteRefusal::Memory),
    }
}

/// Undoes what has not ended.
fn undo_open<const SLOTS: usize>(
    alloc: Global,
    replay: &mut Replay<SLOTS>,
) -> Result<(), PromoteRefusal>
    requires slots { IsSlotCount SLOTS }
    requires skips { AreNoneAwaited replay.old.skips }
    requires rules { AreConsistent SLOTS (8 * length replay.old.skips) replay.old.cells }
    ensures undone { OnOk result (CanRestart SLOTS replay.old.cells replay.old.unended × (replay.new.cells ≡ restored SLOTS replay.old.cells replay.old.unended)) }
    ensures rules { OnOk result (KeepsRules replay.new.cells) }
    ensures stuck { (id rule : ℕ) → IsErrOf result (Unsound id rule) → RestartsStuckAt SLOTS replay.old.cells replay.old.unended id × (rule ≡ 5) }
    ensures refusals { (e : Refusal) → IsErrOf result e → IsOfCells e }
{
    let pages = (replay.last_id() as usize / CELLS_OF_PAGE) as u16;
    let mut marks = PageMarks::new(alloc, pages)?;
    match undo_all(alloc, replay, &mut marks) {
        Ok(_records) => Ok(()),
        Err(UndoRefusal::Unsound { id }) => Err(PromoteRefusal::Unsound { id, rule: 5 }),
        Err(UndoRefusal::Memory) => Err(PromoteRefusal::Memory),
    }
}

/// Each number of a page is in the range of its type.
fn know_page<const SLOTS: usize>(number: u16, page: &Page<SLOTS>)
    requires { IsPage number page.now }
    ensures { AreTyped page.now }
{
    // This call hands the fact out.
    let _first = page.cell(first_id(number));
}

/// A store may be made with these pages.
fn know_pages<const SLOTS: usize>(pages: &[Page<SLOTS>])
    requires { AreStorePages pages.now }
    ensures { MayBeMade pages.now }
{
    for number in 0..pages.len() {
        know_page(number as u16, &pages[number]);
    }
}

/// Makes a store of what records made of the pages of a base: where it keeps the first four rules, what has not ended is undone.
///
/// [`PromoteRefusal::Unsound`] comes exactly where it breaks one of them, or where an undo can't be done.
pub fn settle<const SLOTS: usize>(
    alloc: Global,
    replay: Replay<SLOTS>,
) -> Result<Settled<SLOTS>, PromoteRefusal>
    requires slots { IsSlotCount SLOTS }
    requires skips { AreNoneAwaited replay.skips }
    ensures settled { IfOk result (IsSettled SLOTS replay.entry) }
    ensures unsound { (id rule : ℕ) → IsErrOf result (Unsound id rule) → BreaksAt SLOTS replay.entry id rule }
    ensures refusals { (e : Refusal) → IsErrOf result e → IsOfCells e }
{
    let mut replay = replay;
    keep_rules(alloc, &replay)?;
    undo_open(alloc, &mut replay)?;
    let stored = stored_ids(alloc, &replay)?;
    let pages = replay.into_pages();
    know_pages(&pages);
    Ok(Settled { pages, stored })
}
