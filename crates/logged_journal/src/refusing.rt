//! What upkeep is refused before it looks at a page.
ghost use Rattle.std.specs.Prelude.{◌≡◌, ◌≢◌, ◌⊎◌, ◌↔◌, ℕ, true, false, IfSome, IsSome, Some, None};
ghost use Rattle.plain_model.specs.History.{end_of, least_active};
ghost use Rattle.core_store.specs.Limited.{is_past_limit};
ghost use Rattle.logged_journal.specs.Calls.{KeepsDisk};
ghost use Rattle.logged_journal.specs.View.{OnlyTakesRoom};
ghost use Rattle.logged_journal.specs.Upkeep.{TellsBusy};

use crate::logged::LoggedJournal;
use crate::upkeep::Upkeep;
use core_store::RoomRefusal;
use disk_model::Disk;

impl<const SLOTS: usize, D: Disk> LoggedJournal<SLOTS, D> {
    /// The least client with a transaction.
    fn least_active(&self) -> Option<u8>
        ensures { result ≡ least_active (end_of self.now.journal.history).state }
    {
        self.journal.least_active()
    }

    /// Enters that a turn was refused, since this client, the least active one, has a transaction, in the room that was reserved.
    fn tell_busy(&mut self, pass: u8)
        requires running { self.old.failed ≡ None }
        requires reserved { self.old.journal.reserved ≡ true }
        requires least { least_active (end_of self.old.journal.history).state ≡ Some pass }
        ensures told { TellsBusy SLOTS self.old self.new pass }
    {
        self.journal.enter_turn_busy(pass);
    }

    /// What a page's cleaning is refused before the page is looked at, if it is: that the store is stopped, or that the history
    /// has no room for one entry, and then nothing is done.
    pub fn refuse_clean(&mut self) -> Option<Upkeep>
        ensures stopped { IfSome self.old.failed (λ f. (result ≡ Some (Upkeep.Stopped f.faults)) × (self.new ≡ self.old)) }
        ensures full { self.old.failed ≡ None → is_past_limit self.old.journal 1 ≡ true
            → (result ≡ Some Upkeep.TraceFull) × (self.new ≡ record self.old { journal = record self.old.journal { marks = record self.old.journal.marks { trace = true } } }) }
        ensures free { self.old.failed ≡ None → is_past_limit self.old.journal 1 ≡ false → (result ≡ None) × OnlyTakesRoom self.old self.new }
    {
        if let Some(failed) = self.failed() {
            return Some(Upkeep::Stopped {
                faults: failed.faults,
            });
        }
        match self.reserve_entry() {
            Ok(()) | Err(RoomRefusal::Memory) => None,
            Err(RoomRefusal::TraceFull) => Some(Upkeep::TraceFull),
        }
    }

    /// What a turn is refused before a page is looked at, if it is.
    ///
    /// [`Upkeep::Stopped`] comes exactly where the disk failed a call before, [`Upkeep::TraceFull`] exactly where the history has
    /// no room for one entry. [`Upkeep::Busy`] comes where a transaction is active, unless memory is out; it names the least such
    /// client, and enters the history. The others, and [`Upkeep::Memory`], do nothing, and no other answer comes. Where it is not
    /// refused, room for its entry is reserved.
    pub fn refuse_turn(&mut self) -> Option<Upkeep>
        ensures stopped { IfSome self.old.failed (λ f. (result ≡ Some (Upkeep.Stopped f.faults)) × (self.new ≡ self.old)) }
        ensures only_stopped { (faults : ℕ) → result ≡ Some (Upkeep.Stopped faults) → IsSome self.old.failed }
        ensures full { (result ≡ Some Upkeep.TraceFull) ↔ (self.old.failed ≡ None) × (is_past_limit self.old.journal 1 ≡ true) }
        ensures marked { result ≡ Some Upkeep.TraceFull → self.new ≡ record self.old { journal = record self.old.journal { marks = record self.old.journal.marks { trace = true } } } }
        ensures busy { (pass : ℕ) → self.old.failed ≡ None → is_past_limit self.old.journal 1 ≡ false → least_active (end_of self.old.journal.history).state ≡ Some pass
            → (result ≡ Some (Upkeep.Busy pass)) ⊎ (result ≡ Some Upkeep.Memory) }
        ensures only_busy { (pass : ℕ) → result ≡ Some (Upkeep.Busy pass) → least_active (end_of self.old.journal.history).state ≡ Some pass }
        ensures told { (pass : ℕ) → result ≡ Some (Upkeep.Busy pass) → TellsBusy SLOTS self.old self.new pass }
        ensures memory { result ≡ Some Upkeep.Memory → self.new ≡ self.old }
        ensures never { (result ≢ Some Upkeep.Done) × (result ≢ Some Upkeep.LogFull) × (result ≢ Some Upkeep.DiskFault) }
        ensures free { result ≡ None → (self.old.failed ≡ None) × (least_active (end_of self.old.journal.history).state ≡ None) × (self.new ≡ record self.old { journal = record self.old.journal { reserved = true } }) }
        ensures untouched { KeepsDisk self.old self.new }
    {
        if let Some(failed) = self.failed() {
            return Some(Upkeep::Stopped {
                faults: failed.faults,
            });
        }
        match self.reserve_entry() {
            Ok(()) => {}
            Err(RoomRefusal::TraceFull) => return Some(Upkeep::TraceFull),
            Err(RoomRefusal::Memory) => return Some(Upkeep::Memory),
        }
        let pass = self.least_active()?;
        self.tell_busy(pass);
        Some(Upkeep::Busy { pass })
    }
}
