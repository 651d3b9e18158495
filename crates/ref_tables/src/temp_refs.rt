//! The temporary reference table.
ghost use Rattle.std.specs.Prelude.{◌≡◌, ◌≢◌, ◌<◌, ◌≤◌, ◌-◌, ℕ, [], OnOk, OnErr, IsOk, is_ok, if◌then◌else◌, true, false, slice_get, option_map};
ghost use Rattle.ref_tables.specs.Counts.{room_in, HasSameCounts};

use crate::counts::Counts;
use crate::kind::{Kind, TempRef};
use crate::{Memory, lists};
use std::alloc::Global;
use std::marker::Model;

/// For how many entries room is taken at a time, so that the next calls find it there.
const ROOM: u32 = 64;

/// The references that the clients' running transactions made, laid into slots or cut, in order.
/// An object that an entry names must not be deleted.
///
/// `pass` is the client's number, and `target` and `id` are those of objects. The table takes any
/// number. `names` looks at a count for each target, and `end` goes over the client's own entries.
/// Room is reserved for one client at a time, so that no call goes over the clients.
#[derive(Debug, Drop)]
pub struct TempRefs {
    alloc: Global,
    /// The entries of each client, at its number.
    lists: Vec<Vec<TempRef>>,
    counts: Counts,
    /// The client that room is reserved for.
    room_for: u8,
    /// For how many more of its entries.
    room: u32,
}

/// Takes room for one more entry where none is reserved.
#[inline(always)]
fn reserve_count(counts: &mut Counts, room: u32) -> Result<(), Memory>
    requires { room ≤ room_in counts.old }
    ensures same { HasSameCounts counts.old counts.new }
    ensures ok { OnOk result (0 < room_in counts.new) }
    ensures succeeds { 0 < room → IsOk result }
    ensures keeps { room_in counts.old ≤ room_in counts.new }
{
    if room > 0 {
        return Ok(());
    }
    counts.reserve(1)
}

impl Model for TempRefs {
    ghost use Rattle.ref_tables.specs.Refs.{Table, seen, AreRefsInside};

    ghost Value = { Table };

    ghost view = { λ a. record { clients = seen a.lists.items; room_for = a.room_for; room = a.room } };

    ghost invariant = { λ a. AreRefsInside a.lists.items a.counts a.room_for a.room };
}

impl TempRefs {
    ghost use Rattle.ref_tables.specs.Refs.{entries_of, room_of, Names, IsSame, HasSameRoom, Adds, Ends};

    /// The table without an entry. It takes no memory.
    pub fn new(alloc: Global) -> TempRefs
        ensures { result ≡ record { clients = []; room_for = 0; room = 0 } }
    {
        TempRefs {
            alloc,
            lists: Vec::new(alloc),
            counts: Counts::new(alloc),
            room_for: 0,
            room: 0,
        }
    }

    /// Appends an entry to the client's. Where room is reserved for the client, it succeeds. An entry uses one place of
    /// the room that there is, whichever client it is reserved for. Out of memory is its only error, and leaves the
    /// table as it was.
    #[inline(always)]
    pub fn add(&mut self, pass: u8, target: u32, kind: Kind) -> Result<(), Memory>
        ensures ok { OnOk result (Adds self.old self.new pass (record { target = target; kind = kind })) }
        ensures err { OnErr result (IsSame self.old self.new) }
        ensures succeeds { 0 < room_of self.old pass → IsOk result }
        ensures room { (p : ℕ) → room_of self.new p ≡ (if is_ok result then room_of self.old p - 1 else room_of self.old p) }
    {
        // With room for a count, only the append can fail, and nothing has to be undone.
        reserve_count(&mut self.counts, self.room)?;
        lists::add(&mut self.lists, self.alloc, pass, TempRef { target, kind })?;
        self.counts.add(target);
        self.room = self.room.saturating_sub(1);
        Ok(())
    }

    /// Takes room for so many more entries of the client, and gives up the room that another has.
    /// Out of memory is its only error. The entries stay, and so does room where it fails.
    #[inline(always)]
    pub fn reserve(&mut self, pass: u8, more: u32) -> Result<(), Memory>
        ensures ok { OnOk result (more ≤ room_of self.new pass) }
        ensures others { OnOk result ((p : ℕ) → p ≢ pass → room_of self.new p ≡ 0) }
        ensures same { IsSame self.old self.new }
        ensures room { room_of self.old pass ≤ room_of self.new pass }
        ensures err { OnErr result (HasSameRoom self.old self.new) }
    {
        if pass == self.room_for && more <= self.room {
            return Ok(());
        }
        let room = more.max(ROOM);
        self.counts.reserve(room)?;
        lists::reserve(&mut self.lists, self.alloc, pass, room)?;
        self.room_for = pass;
        self.room = room;
        Ok(())
    }

    /// Whether some entry of some client has this target.
    pub fn names(&self, id: u32) -> bool
        ensures yes { result ≡ true → (pass : ℕ) × Names (entries_of self.now pass) id }
        ensures no { result ≡ false → (pass : ℕ) → ¬ Names (entries_of self.now pass) id }
    {
        self.counts.has(id)
    }

    /// The client's entries, in the order in which they were added.
    pub fn entries(&self, pass: u8) -> &[TempRef]
        ensures { result.now ≡ entries_of self.now pass }
    {
        lists::list(&self.lists, pass)
    }

    /// The target of the client's entry at this place among its own, counted from 0, and `None`
    /// exactly where there is no such entry.
    pub fn target(&self, pass: u8, place: u32) -> Option<u32>
        ensures { result ≡ option_map (λ entry. entry.target) (slice_get (entries_of self.now pass) place) }
    {
        lists::target_at(lists::list(&self.lists, pass), place)
    }

    /// Takes the client's entries out. All others stay as they were, and so does the reserved room.
    /// It takes no memory.
    pub fn end(&mut self, pass: u8)
        ensures ends { Ends self.old self.new pass }
        ensures room { HasSameRoom self.old self.new }
    {
        self.counts.forget_all(lists::list(&self.lists, pass));
        lists::clear(&mut self.lists, pass);
    }
}
