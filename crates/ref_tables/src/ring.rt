//! A ring of ids, in which each knows its neighbours.
ghost use Rattle.std.specs.Prelude.{◌≡◌, ℕ, ◌≤◌, ◌==◌, true, if◌then◌else◌, IfOk, IsTrue};
ghost use Rattle.ref_tables.specs.Ring.{link_of, next_of, previous_of, is_linked, IsLinked, StandsAtItsNumber};

use crate::Memory;
use indexmap::IndexMap;
use std::alloc::Global;

/// The neighbours of an id in the ring. After the last id and before the first stands 0.
#[derive(Clone, Copy, PartialEq, Eq, Debug, Drop)]
pub(crate) struct Link {
    /// The id before it.
    pub(crate) previous: u32,
    /// The id after it.
    pub(crate) next: u32,
}

/// Links for 0 and the ids up to this one, all of them to 0.
pub(crate) fn unlinked(alloc: Global, ids: u32) -> Result<IndexMap<u32, Link>, Memory>
    ensures linked { IfOk result (λ links. (id : ℕ) → id ≤ ids → IsLinked links id) }
    ensures next { IfOk result (λ links. (id : ℕ) → next_of links id ≡ 0) }
    ensures previous { IfOk result (λ links. (id : ℕ) → previous_of links id ≡ 0) }
{
    let mut links = IndexMap::with_capacity(alloc, ids as usize + 1)?;
    let alone = Link {
        previous: 0,
        next: 0,
    };
    'ids: for id in 0..ids as u64 + 1 {
        links.insert(id as u32, alone)?;
    }
    Ok(links)
}

/// Whether the link of the id stands at the place that the id's number is. The ids joined in their order, so it does.
#[inline(always)]
fn is_in_place(links: &IndexMap<u32, Link>, id: u32) -> bool
    ensures { IsTrue result → StandsAtItsNumber links.now id }
{
    match links.get_index(id as usize) {
        Some((key, _)) => *key == id,
        None => false,
    }
}

/// The neighbours of the id.
#[inline(always)]
pub(crate) fn neighbours(links: &IndexMap<u32, Link>, id: u32) -> Link
    ensures next { result.next ≡ next_of links.now id }
    ensures previous { result.previous ≡ previous_of links.now id }
{
    match links.get_index(id as usize) {
        Some((key, link)) if *key == id => *link,
        _ => found(links, id),
    }
}

/// The neighbours of the id, wherever its link stands.
fn found(links: &IndexMap<u32, Link>, id: u32) -> Link
    ensures next { result.next ≡ next_of links.now id }
    ensures previous { result.previous ≡ previous_of links.now id }
{
    match links.get(&id) {
        Some(link) => *link,
        None => Link {
            previous: 0,
            next: 0,
        },
    }
}

/// The id gets this link in place of the one that it has, wherever that stands.
fn set_found(links: &mut IndexMap<u32, Link>, id: u32, link: Link)
    requires { IsLinked links.old id }
    ensures link { (at : ℕ) → link_of links.new at ≡ (if at == id then link else link_of links.old at) }
    ensures linked { (at : ℕ) → is_linked links.new at ≡ is_linked links.old at }
{
    if let Some(old) = links.get_mut(&id) {
        *old = link;
    }
}

/// The id gets this link in place of the one that it has.
#[inline(always)]
fn set(links: &mut IndexMap<u32, Link>, id: u32, link: Link)
    requires { IsLinked links.old id }
    ensures link { (at : ℕ) → link_of links.new at ≡ (if at == id then link else link_of links.old at) }
    ensures linked { (at : ℕ) → is_linked links.new at ≡ is_linked links.old at }
{
    if is_in_place(links, id) {
        let (_, old) = links.pair_mut(id as usize);
        *old = link;
    } else {
        set_found(links, id, link);
    }
}

/// After the id stands this one.
fn set_next(links: &mut IndexMap<u32, Link>, id: u32, next: u32)
    requires { IsLinked links.old id }
    ensures next { (at : ℕ) → next_of links.new at ≡ (if at == id then next else next_of links.old at) }
    ensures previous { (at : ℕ) → previous_of links.new at ≡ previous_of links.old at }
    ensures linked { (at : ℕ) → is_linked links.new at ≡ is_linked links.old at }
{
    let Link { previous, .. } = neighbours(links, id);
    set(links, id, Link { previous, next });
}

/// Before the id stands this one.
fn set_previous(links: &mut IndexMap<u32, Link>, id: u32, previous: u32)
    requires { IsLinked links.old id }
    ensures next { (at : ℕ) → next_of links.new at ≡ next_of links.old at }
    ensures previous { (at : ℕ) → previous_of links.new at ≡ (if at == id then previous else previous_of links.old at) }
    ensures linked { (at : ℕ) → is_linked links.new at ≡ is_linked links.old at }
{
    let Link { next, .. } = neighbours(links, id);
    set(links, id, Link { previous, next });
}

/// Puts the id between the last one and 0.
pub(crate) fn link_last(links: &mut IndexMap<u32, Link>, id: u32)
    requires end { IsLinked links.old 0 }
    requires own { IsLinked links.old id }
    requires last { IsLinked links.old (previous_of links.old 0) }
    ensures next { (at : ℕ) → next_of links.new at ≡ (if at == id then 0 else if at == previous_of links.old 0 then id else next_of links.old at) }
    ensures previous { (at : ℕ) → previous_of links.new at ≡ (if at == 0 then id else if at == id then previous_of links.old 0 else previous_of links.old at) }
    ensures linked { (at : ℕ) → is_linked links.new at ≡ is_linked links.old at }
{
    let last = neighbours(links, 0).previous;
    set_next(links, last, id);
    set_next(links, id, 0);
    set_previous(links, id, last);
    set_previous(links, 0, id);
}

/// Makes the neighbours of the id neighbours of each other. What the id itself has stays.
pub(crate) fn unlink(links: &mut IndexMap<u32, Link>, id: u32)
    requires before { IsLinked links.old (previous_of links.old id) }
    requires behind { IsLinked links.old (next_of links.old id) }
    ensures next { (at : ℕ) → next_of links.new at ≡ (if at == previous_of links.old id then next_of links.old id else next_of links.old at) }
    ensures previous { (at : ℕ) → previous_of links.new at ≡ (if at == next_of links.old id then previous_of links.old id else previous_of links.old at) }
    ensures linked { (at : ℕ) → is_linked links.new at ≡ is_linked links.old at }
{
    let Link { previous, next } = neighbours(links, id);
    set_next(links, previous, next);
    set_previous(links, next, previous);
}
