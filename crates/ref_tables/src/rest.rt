//! The counts of targets that have no place in a row.
ghost use Rattle.std.specs.Prelude.{◌≡◌, ◌<◌, ◌≤◌, ◌+◌, ◌^◌, ◌==◌, ℕ, nat_lt, if◌then◌else◌};
ghost use Rattle.indexmap.specs.IndexMap.{spare};
ghost use Rattle.ref_tables.specs.Counts.{count_at};

use indexmap::IndexMap;

/// How many entries have the target.
pub(crate) fn get(counts: &IndexMap<u32, u128>, target: u32) -> u128
    ensures { result ≡ count_at counts.now target }
{
    match counts.get(&target) {
        Some(count) => *count,
        None => 0,
    }
}

/// Whether some entry has the target. Mostly nothing is counted here at all.
pub(crate) fn has(counts: &IndexMap<u32, u128>, target: u32) -> bool
    ensures { result ≡ nat_lt 0 (count_at counts.now target) }
{
    !counts.is_empty() && get(counts, target) > 0
}

/// Counts an entry more with the target, for which there is room. It takes no memory.
pub(crate) fn add(counts: &mut IndexMap<u32, u128>, target: u32)
    requires small { count_at counts.old target + 1 < 2 ^ 128 }
    requires spare { 0 < spare counts.old }
    ensures counts { (t : ℕ) → count_at counts.new t ≡ count_at counts.old t + (if t == target then 1 else 0) }
    ensures room { spare counts.old ≤ spare counts.new + 1 }
{
    if let Ok(entry) = counts.entry(target) {
        *entry.or_insert(0) += 1;
    }
}

/// Counts an entry less with the target, which has one. It takes no memory.
pub(crate) fn forget(counts: &mut IndexMap<u32, u128>, target: u32)
    requires { 0 < count_at counts.old target }
    ensures counts { (t : ℕ) → count_at counts.new t + (if t == target then 1 else 0) ≡ count_at counts.old t }
    ensures room { spare counts.old ≤ spare counts.new }
{
    let Some((place, _, count)) = counts.get_full(&target) else {
        return;
    };
    if *count > 1 {
        let (_, left) = counts.pair_mut(place);
        *left -= 1;
    } else {
        counts.swap_remove_index(place);
    }
}
