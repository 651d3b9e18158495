//! The objects that words of names lead to, reached and listed.
ghost use Rattle.std.specs.Prelude.{◌≡◌, ◌<◌, ◌≤◌, ◌/◌, ◌%◌, ◌==◌, ◌&&◌, length, IfOk};
ghost use Rattle.par_audit.specs.Marks.{Follows, has_bit, is_marked};

use crate::following::visit;
use crate::marks::{lowest, without};
use plain_model::Memory;

/// Reaches and lists the objects whose marks this word of names has and that aren't reached yet, ascending.
#[inline(always)]
fn follow_word(
    unreached: &mut [u64],
    found: &mut Vec<u32>,
    at: usize,
    names: u64,
) -> Result<(), Memory>
    requires within { at < length unreached.old }
    requires few { at ≤ 262144 }
    ensures { IfOk result (λ _. Follows (λ id. (id / 64 == at) && has_bit names (id % 64)) unreached.old unreached.new found.old.items found.new.items) }
{
    let mut left = unreached[at] & names;
    while left != 0 {
        let bit = lowest(left);
        visit(unreached, found, 64 * at as u32 + bit)?;
        left = without(left, bit);
    }
    Ok(())
}

/// Reaches and lists the objects that the words mark and that aren't reached yet, ascending.
pub(crate) fn follow_words(
    unreached: &mut [u64],
    found: &mut Vec<u32>,
    words: &[u64],
) -> Result<(), Memory>
    requires len { length words.now ≡ length unreached.old }
    requires few { length words.now ≤ 262145 }
    ensures { IfOk result (λ _. Follows (is_marked words.now) unreached.old unreached.new found.old.items found.new.items) }
{
    for at in 0..words.len() {
        follow_word(unreached, found, at, words[at])?;
    }
    Ok(())
}
