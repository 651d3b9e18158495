//! What is reachable is found where memory is left, which no clause can say. The program does not ask for it.

use plain_model::{Graph, Memory, Object, Slots, reach};
use std::alloc::Global;
use std::process::Abort;
use std::test::Fail;

/// These ids, in this order.
fn expect_ids(rt: &impl Abort, told: &[u32], wanted: &[u32]) {
    assert!(rt; told == wanted);
}

/// Just these objects are reachable from this one.
fn expect_reached(
    rt: &impl Abort,
    alloc: Global,
    graph: &Graph,
    from: u32,
    wanted: &[u32],
) -> Result<(), Memory> {
    expect_ids(rt, reach(alloc, graph, &[from])?.items(), wanted);
    Ok(())
}

/// A graph of the root and an object 2, each with one slot, which hold these ids.
fn root_and_second(alloc: Global, first: u32, second: u32) -> Result<Graph, Memory> {
    let mut graph = Graph::new(alloc);
    let mut slots = Slots::new(alloc);
    slots.push(first)?;
    graph.push(Object {
        id: 1,
        slots,
        payload: 0,
    })?;
    let mut others = Slots::new(alloc);
    others.push(second)?;
    graph.push(Object {
        id: 2,
        slots: others,
        payload: 0,
    })?;
    Ok(graph)
}

#[test]
fn reaches_what_a_slot_names(rt: HostRuntime) -> Result<(), Fail> {
    let graph = root_and_second(rt.alloc(), 2, 0)?;
    expect_reached(&rt, rt.alloc(), &graph, 1, &[1, 2])?;
    expect_reached(&rt, rt.alloc(), &graph, 2, &[2])?;
    Ok(())
}
