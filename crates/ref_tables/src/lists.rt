//! The entries of each client.
ghost use Rattle.std.specs.Prelude.{◌≡◌, ◌+◌, ◌<◌, ℕ, OnOk, OnErr, IsOk, length, option_map, slice_get};
ghost use Rattle.ref_tables.specs.Lists.{list_of, HasRoom, KeepsRoom, AreSame, AddsEntry, EndsClient};

use crate::Memory;
use crate::kind::TempRef;
use std::alloc::Global;

/// Makes a list for the client, and for each one below it that has none.
fn make(lists: &mut Vec<Vec<TempRef>>, alloc: Global, pass: u8) -> Result<(), Memory>
    ensures same { AreSame lists.old.items lists.new.items }
    ensures keeps { KeepsRoom lists.old.items lists.new.items }
    ensures made { OnOk result (pass < length lists.new.items) }
{
    for _ in lists.len()..pass as usize + 1 {
        lists.push(Vec::new(alloc))?;
    }
    Ok(())
}

/// Sees that the client has a list.
#[inline(always)]
fn open(lists: &mut Vec<Vec<TempRef>>, alloc: Global, pass: u8) -> Result<(), Memory>
    ensures same { AreSame lists.old.items lists.new.items }
    ensures keeps { KeepsRoom lists.old.items lists.new.items }
    ensures opened { OnOk result (pass < length lists.new.items) }
    ensures succeeds { pass < length lists.old.items → IsOk result }
{
    if (pass as usize) < lists.len() {
        return Ok(());
    }
    make(lists, alloc, pass)
}

/// Takes room for so many more entries of the client.
pub(crate) fn reserve(
    lists: &mut Vec<Vec<TempRef>>,
    alloc: Global,
    pass: u8,
    more: u32,
) -> Result<(), Memory>
    ensures same { AreSame lists.old.items lists.new.items }
    ensures keeps { KeepsRoom lists.old.items lists.new.items }
    ensures room { OnOk result (HasRoom lists.new.items pass more) }
    ensures succeeds { HasRoom lists.old.items pass more → IsOk result }
{
    open(lists, alloc, pass)?;
    lists[pass as usize].reserve(more as usize)
}

/// Appends the entry to the client's, and takes memory only where there is no room for it.
#[inline(always)]
pub(crate) fn add(
    lists: &mut Vec<Vec<TempRef>>,
    alloc: Global,
    pass: u8,
    entry: TempRef,
) -> Result<(), Memory>
    ensures adds { OnOk result (AddsEntry lists.old.items lists.new.items pass entry) }
    ensures room { OnOk result ((p n : ℕ) → HasRoom lists.old.items p (n + 1) → HasRoom lists.new.items p n) }
    ensures same { OnErr result (AreSame lists.old.items lists.new.items) }
    ensures keeps { OnErr result (KeepsRoom lists.old.items lists.new.items) }
    ensures succeeds { HasRoom lists.old.items pass 1 → IsOk result }
{
    open(lists, alloc, pass)?;
    lists[pass as usize].push(entry)?;
    Ok(())
}

/// The client's entries.
pub(crate) fn list(lists: &Vec<Vec<TempRef>>, pass: u8) -> &[TempRef]
    ensures { result.now ≡ list_of lists.now.items pass }
{
    match lists.get(pass as usize) {
        Some(list) => list.as_slice(),
        None => &[],
    }
}

/// The target of the entry at this place, counted from 0.
pub(crate) fn target_at(list: &[TempRef], place: u32) -> Option<u32>
    ensures { result ≡ option_map (λ entry. entry.target) (slice_get list.now place) }
{
    let entry = list.get(place as usize)?;
    Some(entry.target)
}

/// Takes the client's entries out, and keeps their room.
pub(crate) fn clear(lists: &mut Vec<Vec<TempRef>>, pass: u8)
    ensures ends { EndsClient lists.old.items lists.new.items pass }
    ensures keeps { KeepsRoom lists.old.items lists.new.items }
{
    if let Some(list) = lists.get_mut(pass as usize) {
        list.clear();
    }
}
