//! Runs of clients, timed.
ghost use Rattle.share_bench.specs.Clients.{HasGiven};

use crate::client::{CALLS, Client, Locker, Owner, Sharer, begin, make, work};
use crate::made::{MemoryPass, MemoryStore, new_journal, new_store, share_next};
use crate::order::{How, Mix, Order};
use anyhow::Result;
use std::rt::Clock;
use std::sync::{Mutex, Wait};
use std::thread;
use std::thread::Threads;
use std::time::{Duration, Instant};

/// How many calls were done, and how long they took.
#[derive(Clone, Copy)]
pub(crate) struct Tally {
    /// The calls of all clients together.
    pub(crate) calls: u64,
    /// The time from before the first one to after the last one, in microseconds.
    pub(crate) micros: u64,
}

impl Tally {
    /// So many calls in this time.
    fn of(calls: u64, taken: Duration) -> Tally {
        let micros = u64::from(taken.subsec_micros());
        Tally {
            calls,
            micros: taken
                .as_secs()
                .saturating_mul(1_000_000)
                .saturating_add(micros),
        }
    }

    /// How many calls a second that makes.
    pub(crate) fn per_second(&self) -> u64 {
        self.calls.saturating_mul(1_000_000) / self.micros.max(1)
    }
}

/// Lets each client work in a thread of its own.
fn work_all<C: Client + Send + Drop, R: Threads + Clock + Sync>(
    rt: &R,
    clients: Vec<C>,
    mix: Mix,
) -> Result<Tally> {
    let start = Instant::now(rt)?;
    let done = thread::map_vec(rt, clients, &|client| work(client, mix))?;
    let taken = start.elapsed(rt)?;
    let mut calls = 0u64;
    'clients: for done in done.as_slice() {
        calls = calls.saturating_add(u64::from(*done));
    }
    Ok(Tally::of(calls, taken))
}

/// Clients with passes of this store, which has its first pass.
fn share_among<R: Threads + Wait + Clock + AllocGlobal + Sync>(
    rt: &R,
    store: &MemoryStore,
    mut main: MemoryPass,
    order: Order,
) -> Result<Tally>
    requires { HasGiven store.now main 1 }
{
    let mut clients = Vec::with_capacity(rt.alloc(), 4)?;
    'clients: for number in 1..=order.clients {
        let pass = share_next(store, &mut main, number);
        let mut client = Sharer { rt, store, pass };
        begin(&mut client);
        clients.push(client)?;
    }
    work_all(rt, clients, order.mix)
}

/// Clients with passes of one store.
fn run_shared<R: Threads + Wait + Clock + AllocGlobal + Sync>(
    rt: &R,
    order: Order,
) -> Result<Tally> {
    match new_store(rt.alloc()) {
        Ok((store, main)) => share_among(rt, &store, main, order),
        Err(error) => Err(error),
    }
}

/// Clients with a lock round one journal.
fn run_locked<R: Threads + Wait + Clock + AllocGlobal + Sync>(
    rt: &R,
    order: Order,
) -> Result<Tally> {
    let journal = Mutex::new(new_journal(rt.alloc())?);
    let mut clients = Vec::with_capacity(rt.alloc(), 4)?;
    'clients: for number in 1..=order.clients {
        let mut client = Locker {
            rt,
            journal: &journal,
            number,
        };
        begin(&mut client);
        clients.push(client)?;
    }
    work_all(rt, clients, order.mix)
}

/// Begins the transactions of all clients.
fn begin_in_turn(owner: &mut Owner, order: Order) {
    'clients: for client in 1..=order.clients {
        owner.turn_to(client);
        begin(owner);
    }
}

/// Makes the call of this number of each client in turn. How many were done.
fn make_in_turn(owner: &mut Owner, number: u32, order: Order) -> u64 {
    let mut done = 0u64;
    'clients: for client in 1..=order.clients {
        owner.turn_to(client);
        done = done.saturating_add(u64::from(make(owner, number, order.mix)));
    }
    done
}

/// Makes all calls of all clients. How many were done.
fn work_in_turn(owner: &mut Owner, order: Order) -> u64 {
    let mut done = 0u64;
    'calls: for number in 0..CALLS {
        done = done.saturating_add(make_in_turn(owner, number, order));
    }
    done
}

/// Makes the calls of all clients in turn, timed.
fn time_in_turn<R: Clock>(rt: &R, owner: &mut Owner, order: Order) -> Result<Tally> {
    begin_in_turn(owner, order);
    let start = Instant::now(rt)?;
    let calls = work_in_turn(owner, order);
    Ok(Tally::of(calls, start.elapsed(rt)?))
}

/// One thread that makes the calls of all clients.
fn run_alone<R: Clock + AllocGlobal>(rt: &R, order: Order) -> Result<Tally> {
    match new_journal(rt.alloc()) {
        Ok(journal) => time_in_turn(rt, &mut Owner::new(journal), order),
        Err(error) => Err(error),
    }
}

/// Makes the calls of so many clients, and tells how long they took.
fn run<R: Threads + Wait + Clock + AllocGlobal + Sync>(rt: &R, order: Order) -> Result<Tally> {
    match order.how {
        How::Shared => run_shared(rt, order),
        How::Mutex => run_locked(rt, order),
        How::Alone => run_alone(rt, order),
    }
}

/// Counts the calls that these words ask for, if they ask for anything: how clients come to the store, how many they are, and
/// what they ask of it.
pub(crate) fn count<R: Threads + Wait + Clock + AllocGlobal + Sync>(
    rt: &R,
    how: &str,
    clients: &str,
    mix: &str,
) -> Result<Option<Tally>> {
    match Order::of(how, clients, mix) {
        Some(order) => Ok(Some(run(rt, order)?)),
        None => Ok(None),
    }
}
