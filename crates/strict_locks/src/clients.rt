//! The list of the objects that each client holds.
ghost use Rattle.std.specs.List.{list_any, IsDistinct};
ghost use Rattle.std.specs.Ordering.{nat_cmp, eq_by_cmp};
ghost use Rattle.std.specs.BTreeMap.{is_at};
ghost use Rattle.std.specs.Prelude.{◌≡◌, ◌<◌, ℕ, ◌++◌, ◌∷◌, [], false, OnOk, OnErr, length};
ghost use Rattle.strict_locks.specs.Clients.{ids_of, AddsId, DropsId, DropsIds, AreSame};

use crate::held_ids::HeldIds;
use std::alloc::{AllocError, Global};

/// Makes a list for the client, and for each one below it that has none.
fn make(lists: &mut Vec<HeldIds>, alloc: Global, pass: u8) -> Result<(), AllocError>
    ensures same { AreSame lists.old.items lists.new.items }
    ensures made { OnOk result (pass < length lists.new.items) }
{
    for _ in lists.len()..pass as usize + 1 {
        lists.push(HeldIds::new(alloc))?;
    }
    Ok(())
}

/// Sees that the client has a list.
#[inline(always)]
fn open(lists: &mut Vec<HeldIds>, alloc: Global, pass: u8) -> Result<(), AllocError>
    ensures same { AreSame lists.old.items lists.new.items }
    ensures opened { OnOk result (pass < length lists.new.items) }
{
    if (pass as usize) < lists.len() {
        return Ok(());
    }
    make(lists, alloc, pass)
}

/// Adds the id to the client's list, which doesn't name it. Out of memory leaves what the lists name.
pub(crate) fn add(
    lists: &mut Vec<HeldIds>,
    alloc: Global,
    pass: u8,
    id: u32,
) -> Result<(), AllocError>
    requires { list_any (is_at (nat_cmp id)) (ids_of lists.old.items pass) ≡ false }
    ensures ok { OnOk result (AddsId lists.old.items lists.new.items pass id) }
    ensures err { OnErr result (AreSame lists.old.items lists.new.items) }
{
    open(lists, alloc, pass)?;
    lists[pass as usize].insert(id)
}

/// Takes the id out of the client's list. It goes over no other id.
pub(crate) fn take_out(lists: &mut Vec<HeldIds>, pass: u8, id: u32)
    ensures { DropsId lists.old.items lists.new.items pass id }
{
    if let Some(ids) = lists.get_mut(pass as usize) {
        ids.remove(id);
    }
}

/// The client's list.
pub(crate) fn list(lists: &Vec<HeldIds>, pass: u8) -> &[u32]
    ensures value { result.now ≡ ids_of lists.now.items pass }
    ensures once { IsDistinct (eq_by_cmp nat_cmp) result.now }
{
    match lists.get(pass as usize) {
        Some(ids) => ids.items(),
        None => &[],
    }
}

/// Takes the ids out of the client's list, and keeps its room.
pub(crate) fn clear(lists: &mut Vec<HeldIds>, pass: u8)
    ensures { DropsIds lists.old.items lists.new.items pass }
{
    if let Some(ids) = lists.get_mut(pass as usize) {
        ids.clear();
    }
}
