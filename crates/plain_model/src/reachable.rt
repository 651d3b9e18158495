//! What is reachable in a graph.
ghost use Rattle.std.specs.Prelude.{◌≡◌, ℕ, [], ◌∷◌, ◌↔◌, Contains, OnOk, IfOk};
ghost use Rattle.std.specs.List.Sorted.{IsStrictlyIncreasing};
ghost use Rattle.plain_model.specs.Reachable.{Reachable};
ghost use Rattle.plain_model.specs.Walk.{Adds, HasSame, slots_at};

use crate::graph::Graph;
use crate::ids::Ids;
use crate::memory::Memory;
use std::alloc::Global;
use std::collections::BTreeSet;

/// What was found so far: the ids as a set, and the same ids in the order in which they were found.
#[derive(Drop)]
struct Walk {
    found: BTreeSet<u32>,
    order: Vec<u32>,
}

/// Adds the id, unless it is below the least one, the graph doesn't have it, or it was found before.
fn add_one(walk: &mut Walk, graph: &Graph, least: u32, id: u32) -> Result<(), Memory>
    requires { HasSame walk.old.found walk.old.order.items }
    ensures adds { OnOk result (Adds graph.now least (id ∷ []) walk.old.order.items walk.new.order.items) }
    ensures same { OnOk result (HasSame walk.new.found walk.new.order.items) }
{
    if id < least {
        return Ok(());
    }
    if graph.find(id).is_none() {
        return Ok(());
    }
    if walk.found.insert(id)? {
        walk.order.push(id)?;
    }
    Ok(())
}

/// Adds those of the ids that aren't below the least one and that the graph has, each once.
fn add_all(walk: &mut Walk, graph: &Graph, least: u32, ids: &[u32]) -> Result<(), Memory>
    requires { HasSame walk.old.found walk.old.order.items }
    ensures adds { OnOk result (Adds graph.now least ids.now walk.old.order.items walk.new.order.items) }
    ensures same { OnOk result (HasSame walk.new.found walk.new.order.items) }
{
    for id in ids {
        add_one(walk, graph, least, *id)?;
    }
    Ok(())
}

/// Adds what the slots of the object with this id name.
fn follow(walk: &mut Walk, graph: &Graph, id: u32) -> Result<(), Memory>
    requires { HasSame walk.old.found walk.old.order.items }
    ensures adds { OnOk result (Adds graph.now 1 (slots_at graph.now id) walk.old.order.items walk.new.order.items) }
    ensures same { OnOk result (HasSame walk.new.found walk.new.order.items) }
{
    match graph.find(id) {
        Some(object) => add_all(walk, graph, 1, object.slots.items()),
        None => Ok(()),
    }
}

/// The ids that are reachable from these, ascending, each once. Out of memory is its only error.
///
/// Each object that is found is looked at once.
pub fn reach(alloc: Global, graph: &Graph, from: &[u32]) -> Result<Ids, Memory>
    ensures reachable { IfOk result (λ ids. (id : ℕ) → Contains ids id ↔ Reachable graph.now from.now id) }
    ensures ascending { IfOk result (λ ids. IsStrictlyIncreasing ids) }
{
    let mut walk = Walk {
        found: BTreeSet::new(alloc),
        order: Vec::new(alloc),
    };
    add_all(&mut walk, graph, 0, from)?;
    let mut next = 0;
    while next < walk.order.len() {
        let id = walk.order[next];
        follow(&mut walk, graph, id)?;
        next += 1;
    }
    Ids::from_set(alloc, &walk.found)
}
