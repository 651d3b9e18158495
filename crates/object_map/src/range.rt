//! The pairs between two keys, one after another.
ghost use Rattle.std.specs.Prelude.{◌≡◌, ◌+◌, [], IfOk, IfErr, OnOk, OnErr, IsSome, List, ℕ, Some, unwrap_or};
ghost use Rattle.plain_model.specs.Graphs.{root};
ghost use Rattle.plain_map.specs.Pairs.{AscendByKey, next_pair, first_of, between};
ghost use Rattle.object_map.specs.Clients.{seen, no_id, Asks, Fails};
ghost use Rattle.object_map.specs.Maps.{IsMap};
ghost use Rattle.object_map.specs.Ranges.{left, Gives};
ghost use Rattle.object_map.specs.Seen.{held};

use crate::client::Client;
use crate::getting::ObjectMap;
use crate::refusal::MapRefusal;
use disk_model::Disk;

/// The pairs between two keys that are still to come, in order. [`Range::next`] gives the next one.
#[derive(Clone, Copy, PartialEq, Eq, Debug)]
pub struct Range {
    /// No key below this one is to come; without it there is none.
    pub low: Option<u64>,
    /// No key above this one is to come.
    pub high: u64,
}

/// Where a range goes on after this key, which isn't above its high one.
fn after(key: u64, high: u64) -> Option<u64>
    ensures { (pairs : List (ℕ × ℕ)) → left (record { low = result; high = high }) pairs ≡ between (key + 1) high pairs }
{
    if key >= high {
        return None;
    }
    Some(key + 1)
}

impl Range {
    /// What of the pair that comes next in the map is in the range. The range goes on after it.
    fn take(&mut self, found: Option<(u64, u64)>) -> Option<(u64, u64)>
        requires more { IsSome self.old.low }
        ensures gives { (pairs : List (ℕ × ℕ)) → AscendByKey pairs → found ≡ next_pair (unwrap_or self.old.low 0) pairs → Gives result (left self.old pairs) (left self.new pairs) }
    {
        let Some(pair) = found else {
            self.low = None;
            return None;
        };
        if pair.0 > self.high {
            self.low = None;
            return None;
        }
        self.low = after(pair.0, self.high);
        Some(pair)
    }

    /// The next pair, or none where all were given. The objects stay as they are, and may change between two calls: then the pairs to
    /// come are those that the map has then.
    ///
    /// [`MapRefusal::Store`] and [`MapRefusal::Memory`] come only where the store refused the last call for want of room or memory. The
    /// range is as before then.
    pub fn next<D: Disk>(
        &mut self,
        client: &mut Client<D>,
    ) -> Result<Option<(u64, u64)>, MapRefusal>
        requires rooted { held (seen client.old) 0 ≡ Some root }
        requires map { (pairs : List (ℕ × ℕ)) × IsMap 13 (seen client.old).graph pairs }
        ensures pair { IfOk result (λ pair. (pairs : List (ℕ × ℕ)) → IsMap 13 (seen client.old).graph pairs → Gives pair (left self.old pairs) (left self.new pairs)) }
        ensures waits { OnErr result (self.new ≡ self.old) }
        ensures kept { OnOk result ((seen client.new).graph ≡ (seen client.old).graph) }
        ensures asks { OnOk result (Asks 726 [] client.old client.new) }
        ensures rooted { held (seen client.new) 0 ≡ Some root }
        ensures never_full { IfErr result (λ why. why ≡ no_id → ⊥) }
        ensures refused { IfErr result (λ why. Fails why client.old client.new) }
    {
        let Some(low) = self.low else {
            return Ok(None);
        };
        let found = ObjectMap {}.next(client, low)?;
        Ok(self.take(found))
    }
}

impl ObjectMap {
    /// The pairs whose key is neither below the low one nor above the high one, in order.
    pub fn range(&self, low: u64, high: u64) -> Range
        ensures { (pairs : List (ℕ × ℕ)) → left result pairs ≡ between low high pairs }
    {
        Range {
            low: Some(low),
            high,
        }
    }

    /// The pair with the least key, where there is one. The objects stay as they are.
    ///
    /// [`MapRefusal::Store`] and [`MapRefusal::Memory`] come only where the store refused the last call for want of room or memory.
    pub fn first<D: Disk>(&self, client: &mut Client<D>) -> Result<Option<(u64, u64)>, MapRefusal>
        requires rooted { held (seen client.old) 0 ≡ Some root }
        requires map { (pairs : List (ℕ × ℕ)) × IsMap 13 (seen client.old).graph pairs }
        ensures pair { IfOk result (λ pair. (pairs : List (ℕ × ℕ)) → IsMap 13 (seen client.old).graph pairs → pair ≡ first_of pairs) }
        ensures kept { OnOk result ((seen client.new).graph ≡ (seen client.old).graph) }
        ensures asks { OnOk result (Asks 726 [] client.old client.new) }
        ensures rooted { held (seen client.new) 0 ≡ Some root }
        ensures never_full { IfErr result (λ why. why ≡ no_id → ⊥) }
        ensures refused { IfErr result (λ why. Fails why client.old client.new) }
    {
        self.next(client, 0)
    }
}
