//! What copied slots name from the seeds on.
ghost use Rattle.std.specs.Prelude.{◌≡◌, ℕ, ◌≤◌, [], ◌∷◌, ◌++◌, length, Contains};
ghost use Rattle.red_walk.specs.Ids.{IsIdList};
ghost use Rattle.red_walk.specs.Walk.{IsWalk};
ghost use Rattle.green_walk.specs.Judged.{IsLive, Adds};

use red_walk::{IdList, Red};

/// Begins with these ids.
fn begin_with(reached: &mut IdList, ids: &[u32])
    requires { IsIdList ids.now reached.old.limit }
    ensures { reached.new ≡ record reached.old { ids = ids.now } }
{
    reached.clear();
    for id in ids {
        reached.push(*id);
    }
}

/// Adds this object, where it is of the round and wasn't reached.
fn add_one<const SLOTS: usize>(reached: &mut IdList, red: &Red<SLOTS>, target: u32)
    requires { reached.old.limit ≡ red.now.limit }
    ensures adds { Adds red.now.list (target ∷ []) reached.old.ids reached.new.ids }
    ensures limit { reached.new.limit ≡ reached.old.limit }
{
    if red.place(target).is_none() {
        return;
    }
    if reached.has(target) {
        return;
    }
    reached.push(target);
}

/// Adds the objects of the round that the slots name and that weren't reached.
fn add_named<const SLOTS: usize>(reached: &mut IdList, red: &Red<SLOTS>, slots: &[u32])
    requires { reached.old.limit ≡ red.now.limit }
    ensures adds { Adds red.now.list slots.now reached.old.ids reached.new.ids }
    ensures limit { reached.new.limit ≡ reached.old.limit }
{
    for target in slots {
        add_one(reached, red, *target);
    }
}

/// Reaches the least set of the round's objects that has the seeds and what a copied slot of one of it
/// names. Each object is looked at once.
pub(crate) fn reach<const SLOTS: usize>(reached: &mut IdList, red: &Red<SLOTS>, seeds: &[u32])
    requires walk { IsWalk SLOTS red.now }
    requires limit { reached.old.limit ≡ red.now.limit }
    requires seeds { IsIdList seeds.now red.now.limit }
    requires listed { (id : ℕ) → Contains seeds.now id → Contains red.now.list id }
    requires copied { length red.now.list ≡ length red.now.copies }
    ensures only { (id : ℕ) → Contains reached.new.ids id → IsLive red.now (Contains seeds.now) id }
    ensures all { (id : ℕ) → Contains red.now.list id → IsLive red.now (Contains seeds.now) id → Contains reached.new.ids id }
    ensures limit { reached.new.limit ≡ reached.old.limit }
{
    begin_with(reached, seeds);
    let mut next = 0;
    while next < reached.ids().len() {
        if let Some(place) = red.place(reached.ids()[next]) {
            add_named(reached, red, red.targets(place));
        }
        next += 1;
    }
}
