//! Where two ascending lists of ids differ.
ghost use Rattle.std.specs.Prelude.{◌≡◌};
ghost use Rattle.std.specs.List.Sorted.{IsStrictlyIncreasing};
ghost use Rattle.plain_model.specs.Graphs.{IsGraph};
ghost use Rattle.log_checker.specs.Differences.{HaveSame, IsApart};

use crate::same_objects::have_same;
use plain_model::Object;

/// The least id that is in one of the ascending lists and not in the other, or in both and under which the graphs don't have the
/// same object.
pub(crate) fn least_apart(
    left: &[u32],
    right: &[u32],
    one: &[Object],
    other: &[Object],
) -> Option<u32>
    requires left { IsStrictlyIncreasing left.now }
    requires right { IsStrictlyIncreasing right.now }
    requires one { IsGraph one.now }
    requires other { IsGraph other.now }
    ensures { IsApart (HaveSame one.now other.now) left.now right.now result }
{
    let both = left.len().min(right.len());
    for i in 0..both {
        let here = left[i];
        let there = right[i];
        if here != there {
            return Some(here.min(there));
        }
        if !have_same(one, other, here) {
            return Some(here);
        }
    }
    if both < left.len() {
        return Some(left[both]);
    }
    if both < right.len() {
        return Some(right[both]);
    }
    None
}
