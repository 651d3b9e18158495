//! The round's objects, parted.
ghost use Rattle.std.specs.Prelude.{◌≡◌, ℕ, Contains};
ghost use Rattle.red_walk.specs.Ids.{IsIdList};
ghost use Rattle.green_walk.specs.Judged.{Picks};

use red_walk::IdList;

/// Parts the round's objects into those that were reached and the others.
pub(crate) fn part(live: &mut IdList, condemned: &mut IdList, reached: &IdList, list: &[u32])
    requires list { IsIdList list.now live.old.limit }
    requires limit { condemned.old.limit ≡ live.old.limit }
    ensures live { Picks (Contains reached.now.ids) list.now live.new.ids }
    ensures condemned { Picks (λ id. Contains reached.now.ids id → ⊥) list.now condemned.new.ids }
    ensures live_ids { IsIdList live.new.ids live.new.limit }
    ensures condemned_ids { IsIdList condemned.new.ids condemned.new.limit }
    ensures live_limit { live.new.limit ≡ live.old.limit }
    ensures condemned_limit { condemned.new.limit ≡ condemned.old.limit }
{
    live.clear();
    condemned.clear();
    for id in list {
        if reached.has(*id) {
            live.push(*id);
        } else {
            condemned.push(*id);
        }
    }
}
