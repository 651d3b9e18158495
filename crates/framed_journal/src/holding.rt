//! Which frames are held before a call, and how they are put back after it.
ghost use Rattle.std.specs.Prelude.{◌≡◌, ◌≢◌, ◌⊎◌, ◌↔◌, ℕ, ◌*◌, ◌<◌, ◌≤◌, [], length, true, None, IfSome};
ghost use Rattle.std.specs.List.{AllByRecursion};
ghost use Rattle.plain_model.specs.Machine.{IsInRange, transaction_of};
ghost use Rattle.plain_model.specs.History.{end_of};
ghost use Rattle.cell_page.specs.Format.{IsSlotCount};
ghost use Rattle.core_store.specs.JournalView.{JournalView, cells_of};
ghost use Rattle.core_store.specs.Frames.{pages_held, HasPages};
ghost use Rattle.core_store.specs.Limited.{is_past_limit, pages_for_call, pages_for_collector};
ghost use Rattle.core_store.specs.RoundView.{Closed, asked};
ghost use Rattle.core_store.specs.Logged.{want_of, pages_for_undo};
ghost use Rattle.core_store.specs.Replaced.{next_to_restore};
ghost use Rattle.core_store.specs.Work.{IsWorkIn, pages_of_work};
ghost use Rattle.core_store.specs.Steppings.{IsReadyForCollector, OnlyLooks};
ghost use Rattle.framed_journal.specs.Holding.{AreFramesOf, AreFramesIn, AreHeldOf, IsHeldFor, FollowsChange, PutsAllBack};

use core_store::{Frame, Journal, RoundAt, Three, Want, Work};
use disk_model::Disk;
use logged_journal::LoggedJournal;
use plain_model::Call;
use std::alloc::Global;

/// The frames of all pages: the held ones where all are held, else these.
pub(crate) fn all_frames<'a, const SLOTS: usize>(
    frames: &'a Vec<Frame<SLOTS>>,
    held: &'a Three<SLOTS>,
) -> &'a [Frame<SLOTS>]
    ensures { (j : JournalView) → AreFramesIn j frames.now.items held.now → AreFramesOf j result.now }
{
    match held.all() {
        Some(all) => all,
        None => frames.as_slice(),
    }
}

/// The same, without the others.
pub(crate) fn into_frames<const SLOTS: usize>(
    frames: Vec<Frame<SLOTS>>,
    held: Three<SLOTS>,
) -> Vec<Frame<SLOTS>>
    ensures { (j : JournalView) → AreFramesIn j frames.entry.items held.entry → AreFramesOf j result.items }
{
    match held.into_all() {
        Some(all) => all,
        None => frames,
    }
}

/// Frames of all pages between calls: more than three are held for good, and of fewer none is.
pub(crate) fn held_between<const SLOTS: usize>(
    alloc: Global,
    frames: Vec<Frame<SLOTS>>,
) -> (Vec<Frame<SLOTS>>, Three<SLOTS>)
    requires size { IsSlotCount SLOTS }
    requires few { length frames.items ≤ 1024 }
    ensures { (j : JournalView) → AreFramesOf j frames.entry.items → AreFramesIn j result.0.items result.1 }
{
    if frames.len() > 3 {
        (Vec::new(alloc), Three::whole(frames))
    } else {
        (frames, Three::new())
    }
}

/// Holds the frames that this work needs, where none is held.
fn hold<const SLOTS: usize>(
    journal: &Journal<SLOTS>,
    frames: &[Frame<SLOTS>],
    held: &mut Three<SLOTS>,
    work: Option<Work>,
)
    requires frames { AreFramesOf journal.now frames.now }
    requires none { held.old ≡ [] }
    requires work { IsWorkIn SLOTS journal.now.history.ids (cells_of journal.now) work }
    ensures held { AreHeldOf journal.now held.new }
    ensures few { length held.new ≤ 3 }
    ensures ready { want_of (pages_of_work (cells_of journal.now) work) (pages_held held.new) ≡ Want.Ready }
{
    'pages: while let Want::Page(page) = journal.wants_for(work, held) {
        held.put(page, &frames[page as usize]);
    }
}

/// Holds the frames that the call needs.
pub(crate) fn hold_for_call<const SLOTS: usize>(
    journal: &Journal<SLOTS>,
    frames: &[Frame<SLOTS>],
    held: &mut Three<SLOTS>,
    client: u8,
    call: &Call,
)
    requires frames { AreFramesIn journal.now frames.now held.old }
    requires client { (1 ≤ client) × (client ≤ 64) }
    requires in_range { IsInRange SLOTS call.now }
    requires no_abort { call.now ≡ Call.Abort → transaction_of (end_of journal.now.history).state client ≡ None }
    ensures held { IsHeldFor journal.now held.old held.new }
    ensures ready { HasPages journal.now.history.ids (pages_for_call journal.now client call.now) held.new }
{
    if held.is_whole() {
        return;
    }
    hold(journal, frames, held, journal.work(client, call));
}

/// Holds the frames that the next abort step of the client needs.
pub(crate) fn hold_for_abort_step<const SLOTS: usize>(
    journal: &Journal<SLOTS>,
    frames: &[Frame<SLOTS>],
    held: &mut Three<SLOTS>,
    client: u8,
)
    requires frames { AreFramesIn journal.now frames.now held.old }
    ensures held { IsHeldFor journal.now held.old held.new }
    ensures ready { HasPages journal.now.history.ids (pages_for_undo (cells_of journal.now) (next_to_restore (end_of journal.now.history) client)) held.new }
{
    if held.is_whole() {
        return;
    }
    hold(journal, frames, held, journal.undo_work(client));
}

/// Holds the frame that the collector's next look or event needs first, if it needs one.
fn hold_first<const SLOTS: usize>(
    journal: &Journal<SLOTS>,
    frames: &[Frame<SLOTS>],
    held: &mut Three<SLOTS>,
)
    requires frames { AreFramesOf journal.now frames.now }
    requires none { held.old ≡ [] }
    ensures held { AreHeldOf journal.now held.new }
    ensures few { length held.new ≤ 3 }
    ensures needed { want_of (pages_for_collector journal.now) (pages_held held.new) ≢ Want.LetGo }
{
    if let Some(page) = journal.page_to_collect() {
        held.put(page, &frames[page as usize]);
    }
}

/// Holds the frames that the collector's next event needs, where none is held. The collector looks at what they show, and goes
/// on where there is nothing to do. That which it needs first is held before it is asked.
fn hold_for_looks<const SLOTS: usize, D: Disk>(
    logged: &mut LoggedJournal<SLOTS, D>,
    frames: &[Frame<SLOTS>],
    held: &mut Three<SLOTS>,
)
    requires frames { AreFramesOf logged.old.journal frames.now }
    requires none { held.old ≡ [] }
    ensures held { AreHeldOf logged.new.journal held.new }
    ensures few { length held.new ≤ 3 }
    ensures ready { IsReadyForCollector logged.new.journal held.new }
    ensures same { logged.new ≡ record logged.old { journal = logged.new.journal } }
    ensures looks { OnlyLooks SLOTS logged.old.journal logged.new.journal }
{
    hold_first(logged.journal(), frames, held);
    'pages: loop {
        match logged.wants_collect_step(held) {
            Want::Page(page) => held.put(page, &frames[page as usize]),
            Want::LetGo => held.clear(),
            Want::Ready => return,
        }
    }
}

/// Holds the frames that the collector's next event needs, and tells what that works at: nothing where it would make none. The
/// collector looks at what they show, and goes on where there is nothing to do.
pub(crate) fn hold_for_collect_step<const SLOTS: usize, D: Disk>(
    logged: &mut LoggedJournal<SLOTS, D>,
    frames: &[Frame<SLOTS>],
    held: &mut Three<SLOTS>,
) -> Option<RoundAt>
    requires frames { AreFramesIn logged.old.journal frames.now held.old }
    ensures held { IsHeldFor logged.new.journal held.old held.new }
    ensures ready { IsReadyForCollector logged.new.journal held.new }
    ensures none { (result ≡ None) ↔ (is_past_limit logged.new.journal 1 ≡ true) ⊎ ((logged.new.journal.queue ≡ []) × (logged.new.journal.round ≡ Closed)) }
    ensures at { IfSome result (λ at. at ≡ asked logged.new.journal.round) }
    ensures same { logged.new ≡ record logged.old { journal = logged.new.journal } }
    ensures looks { OnlyLooks SLOTS logged.old.journal logged.new.journal }
{
    if held.is_whole() {
        return logged.look_on(held);
    }
    hold_for_looks(logged, frames, held);
    logged.journal().next_event()
}

/// Puts the frames back into their places, where three are held at most.
fn put_few_back<const SLOTS: usize>(frames: &mut Vec<Frame<SLOTS>>, held: &mut Three<SLOTS>)
    requires within { AllByRecursion (λ h. h.page < length frames.old.items) held.old }
    ensures follows { FollowsChange frames.old.items frames.new.items held.old }
    ensures count { length frames.new.items ≡ length frames.old.items }
    ensures none { held.new ≡ [] }
{
    'frames: while let Some(_) = held.put_back(frames) {}
}

/// Puts the frames back into their places, unless all are held for good.
pub(crate) fn put_back<const SLOTS: usize>(frames: &mut Vec<Frame<SLOTS>>, held: &mut Three<SLOTS>)
    requires within { length held.old ≤ 3 → AllByRecursion (λ h. h.page < length frames.old.items) held.old }
    ensures { PutsAllBack frames.old.items frames.new.items held.old held.new }
{
    if !held.is_whole() {
        put_few_back(frames, held);
    }
}
