//! Counts calls a second, and prints how many there were: of clients on threads that share a store, of clients that take turns at a
//! lock, and of one thread that makes the calls of all clients.
//!
//! It promises nothing: its contracts say only what callers need.
#![tactic(auto)]

mod client;
mod made;
mod order;
mod runs;

use crate::runs::{Tally, count};
use std::env;
use std::rt::{Clock, Env};
use std::sync::Wait;
use std::thread::Threads;

/// What the words may be.
const USAGE: &str = "usage: share_bench shared|mutex|alone 1|2|4 reads|writes";

/// What was counted, if the words after the program's name ask for anything.
fn counted<R: Env + Threads + Wait + Clock + AllocGlobal + Sync>(
    rt: &R,
) -> anyhow::Result<Option<Tally>> {
    let mut words = env::args(rt)?.skip(1);
    let (how, clients, mix) = (words.next(), words.next(), words.next());
    let (Some(how), Some(clients), Some(mix), None) = (how, clients, mix, words.next()) else {
        return Ok(None);
    };
    count(rt, how.as_str(), clients.as_str(), mix.as_str())
}

fn main(rt: HostRuntime) -> anyhow::Result<()> {
    let Some(tally) = counted(&rt)? else {
        println!(rt; "{USAGE}")?;
        return Ok(());
    };
    let (calls, micros) = (tally.calls, tally.micros);
    println!(rt;
        "{calls} calls in {micros} microseconds, {} a second",
        tally.per_second()
    )?;
    Ok(())
}
