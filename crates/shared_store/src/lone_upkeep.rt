//! Upkeep of the log and of the pages of a store whose first hold stays the only one.
ghost use Rattle.std.specs.Prelude.{◌≡◌, ◌*◌, ◌<◌, ◌≤◌, true, false};
ghost use Rattle.disk_model.specs.Time.{LeavesOnlyImages};
ghost use Rattle.logged_journal.specs.Opens.{OpensAfter};
ghost use Rattle.logged_journal.specs.Records.{MayHaveAll};
ghost use Rattle.logged_journal.specs.View.{history_of};
ghost use Rattle.shared_store.specs.Upkeep.{DoesCleanOn, DoesTurnOn};

use crate::lone::LoneStore;
use disk_model::Disk;
use latch_table::Chronicle;
use logged_journal::Upkeep;
use std::alloc::Global;

impl<const SLOTS: usize, D: Disk> LoneStore<SLOTS, D> {
    /// Whether the store has more than three pages: then its held frames are one slice.
    fn has_many(&self) -> bool
        ensures many { result ≡ true → 24 < self.now.journal.history.ids }
        ensures few { result ≡ false → self.now.journal.history.ids ≤ 24 }
    {
        self.pages() > 3
    }

    /// Cleans the page, where the store has more than three.
    fn clean_of_many(&mut self, page: u16) -> Upkeep
        requires page { 8 * page < self.old.journal.history.ids }
        requires many { 24 < self.old.journal.history.ids }
        ensures does { DoesCleanOn SLOTS D.faults D.may_leave self.old self.new page result }
        ensures moments { LeavesOnlyImages D.moment D.left_since self.old.disk self.new.disk (MayHaveAll self.old) }
        ensures opens { LeavesOnlyImages D.moment D.left_since self.old.disk self.new.disk (OpensAfter SLOTS (history_of self.old)) }
    {
        let before = self.journal.len();
        // What the frames show, and how many slots an object has: these calls hand the facts out.
        self.journal.know_frames();
        let _ = self.journal.logged();
        let Some(frames) = self.held.all() else {
            unreachable!()
        };
        let answer = self.journal.clean(&frames[page as usize], page);
        self.journal.know_history();
        self.journal.know_frames();
        self.store.tell(&mut self.hold, &self.journal, before);
        answer
    }

    /// Cleans the page, where the store has three at most. Their words are given back for that long.
    fn clean_of_few(&mut self, page: u16) -> Upkeep
        requires page { 8 * page < self.old.journal.history.ids }
        requires few { self.old.journal.history.ids ≤ 24 }
        ensures does { DoesCleanOn SLOTS D.faults D.may_leave self.old self.new page result }
        ensures moments { LeavesOnlyImages D.moment D.left_since self.old.disk self.new.disk (MayHaveAll self.old) }
        ensures opens { LeavesOnlyImages D.moment D.left_since self.old.disk self.new.disk (OpensAfter SLOTS (history_of self.old)) }
    {
        let before = self.journal.len();
        self.store.drop_held(&mut self.hold, &mut self.held);
        let answer = self
            .store
            .act_clean(&mut self.hold, &mut self.journal, page);
        self.store.tell(&mut self.hold, &self.journal, before);
        self.store
            .take_few(&mut self.hold, &self.journal, &mut self.held);
        let Ok(answer) = answer else { unreachable!() };
        answer
    }

    /// Makes the page of this number last in place, as the same call of a journal with its frames does. In a store of at most
    /// three pages the page words are given back for that long.
    pub fn clean(&mut self, page: u16) -> Upkeep
        requires page { 8 * page < self.old.journal.history.ids }
        ensures does { DoesCleanOn SLOTS D.faults D.may_leave self.old self.new page result }

        // At each moment of the call a power loss leaves a log of what was there for good before, or of all that was done. So
        // at each of them the store opens, to a graph that a crash before the call may leave.
        ensures moments { LeavesOnlyImages D.moment D.left_since self.old.disk self.new.disk (MayHaveAll self.old) }
        ensures opens { LeavesOnlyImages D.moment D.left_since self.old.disk self.new.disk (OpensAfter SLOTS (history_of self.old)) }
    {
        if self.has_many() {
            self.clean_of_many(page)
        } else {
            self.clean_of_few(page)
        }
    }

    /// Turns the log, where the store has more than three pages.
    fn turn_of_many(&mut self) -> Upkeep
        requires many { 24 < self.old.journal.history.ids }
        ensures does { DoesTurnOn SLOTS D.faults D.content D.may_leave self.old self.new result }
        ensures moments { LeavesOnlyImages D.moment D.left_since self.old.disk self.new.disk (MayHaveAll self.old) }
        ensures opens { LeavesOnlyImages D.moment D.left_since self.old.disk self.new.disk (OpensAfter SLOTS (history_of self.old)) }
    {
        let before = self.journal.len();
        // What the frames show, and how many slots an object has: these calls hand the facts out.
        self.journal.know_frames();
        let _ = self.journal.logged();
        let Some(frames) = self.held.all() else {
            unreachable!()
        };
        let answer = self.journal.turn(frames);
        self.journal.know_history();
        self.journal.know_frames();
        self.store.tell(&mut self.hold, &self.journal, before);
        answer
    }

    /// Turns the log, where the store has three pages at most. Their words are given back for that long.
    fn turn_of_few(&mut self, alloc: Global) -> Upkeep
        requires few { self.old.journal.history.ids ≤ 24 }
        ensures does { DoesTurnOn SLOTS D.faults D.content D.may_leave self.old self.new result }
        ensures moments { LeavesOnlyImages D.moment D.left_since self.old.disk self.new.disk (MayHaveAll self.old) }
        ensures opens { LeavesOnlyImages D.moment D.left_since self.old.disk self.new.disk (OpensAfter SLOTS (history_of self.old)) }
    {
        let before = self.journal.len();
        self.store.drop_held(&mut self.hold, &mut self.held);
        let answer = self
            .store
            .act_turn(alloc, &mut self.hold, &mut self.journal);
        self.store.tell(&mut self.hold, &self.journal, before);
        self.store
            .take_few(&mut self.hold, &self.journal, &mut self.held);
        let Ok(answer) = answer else { unreachable!() };
        answer
    }

    /// Turns the log, unless a client has a transaction: a checkpoint, after which it begins anew. It does what the same call of
    /// a journal with its frames does. In a store of at most three pages it takes memory for their frames, and the page words are
    /// given back for that long.
    pub fn turn(&mut self, alloc: Global) -> Upkeep
        ensures does { DoesTurnOn SLOTS D.faults D.content D.may_leave self.old self.new result }

        // At each moment of the call a power loss leaves a log of what was there for good before, or of all that was done. So
        // at each of them the store opens, to a graph that a crash before the call may leave.
        ensures moments { LeavesOnlyImages D.moment D.left_since self.old.disk self.new.disk (MayHaveAll self.old) }
        ensures opens { LeavesOnlyImages D.moment D.left_since self.old.disk self.new.disk (OpensAfter SLOTS (history_of self.old)) }
    {
        if self.has_many() {
            self.turn_of_many()
        } else {
            self.turn_of_few(alloc)
        }
    }
}
