//! Prints how long an audit or a marking takes.
#![tactic(auto)]

mod made;
mod order;
mod plain;
mod runs;
mod tally;

use crate::order::Order;
use crate::runs::run;
use crate::tally::Tally;
use std::env;
use std::rt::{Clock, CpuClock, Env};
use std::thread::Threads;

/// What the words may be.
const USAGE: &str = "usage: audit_bench audit|marks random|chain pages|cells plain|1|2|4";

/// What was measured, if the words after the program's name ask for anything.
fn measured<R: Env + Threads + Clock + CpuClock + AllocGlobal + Sync>(
    rt: &R,
) -> anyhow::Result<Option<Tally>> {
    let mut words = env::args(rt)?.skip(1);
    let (work, graph, store, how) = (words.next(), words.next(), words.next(), words.next());
    let (Some(work), Some(graph), Some(store), Some(how), None) = (
        work,
        graph,
        store,
        how,
        words.next(),
    ) else {
        return Ok(None);
    };
    match Order::of(work.as_str(), graph.as_str(), store.as_str(), how.as_str()) {
        Some(order) => Ok(Some(run(rt, order)?)),
        None => Ok(None),
    }
}

fn main(rt: HostRuntime) -> anyhow::Result<()> {
    let Some(tally) = measured(&rt)? else {
        println!(rt; "{USAGE}")?;
        return Ok(());
    };
    let (found, wall, processor) = (tally.found, tally.wall, tally.processor);
    println!(rt; "found {found}: at best {wall} microseconds, {processor} of processor time")?;
    Ok(())
}
