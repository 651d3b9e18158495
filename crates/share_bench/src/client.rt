//! Clients, and what they do.
ghost use Rattle.shared_store.specs.Passes.{IsClient};
ghost use Rattle.share_bench.specs.Clients.{IsClientOf, IsToCall};

use crate::made::{MemoryJournal, MemoryPass, MemoryStore};
use crate::order::Mix;
use plain_model::{Call, Reply};
use std::sync::{Mutex, Wait};
use std::thread;

/// How many calls each client makes. Those of four are fewer than the entries that a history may have.
pub(crate) const CALLS: u32 = 100_000;

/// A client.
pub(crate) trait Client {
    /// Makes the call, and answers as the store does.
    fn ask(&mut self, call: &Call) -> Reply
        requires { IsToCall call.now };
}

/// A client that shares the store.
#[derive(Drop)]
pub(crate) struct Sharer<'s, R: Wait> {
    pub(crate) rt: &'s R,
    pub(crate) store: &'s MemoryStore,
    pub(crate) pass: MemoryPass,
    ghost of_store: { IsClientOf store.now pass },
}

impl<'s, R: Wait> Client for Sharer<'s, R> {
    fn ask(&mut self, call: &Call) -> Reply {
        'tries: for _ in self.rt.forever() {
            match self.store.call(&mut self.pass, call) {
                Reply::Again { .. } => thread::yield_now(),
                reply => return reply,
            }
        }
        unreachable!()
    }
}

/// A client that takes the lock round the journal for each call.
#[derive(Drop)]
pub(crate) struct Locker<'s, R: Wait> {
    pub(crate) rt: &'s R,
    pub(crate) journal: &'s Mutex<MemoryJournal>,
    pub(crate) number: u8,
    ghost is_client: { IsClient number },
}

impl<'s, R: Wait> Client for Locker<'s, R> {
    fn ask(&mut self, call: &Call) -> Reply {
        self.journal.lock(self.rt).call(self.number, call)
    }
}

/// The only thread, which has the journal and is each client in turn.
#[derive(Drop)]
pub(crate) struct Owner {
    journal: MemoryJournal,
    number: u8,
    ghost is_client: { IsClient number },
}

impl Owner {
    /// The first client, with the journal.
    pub(crate) fn new(journal: MemoryJournal) -> Owner {
        Owner { journal, number: 1 }
    }

    /// It is this client from now on.
    pub(crate) fn turn_to(&mut self, number: u8)
        requires { IsClient number }
    {
        self.number = number;
    }
}

impl Client for Owner {
    fn ask(&mut self, call: &Call) -> Reply {
        self.journal.call(self.number, call)
    }
}

/// Begins the client's transaction and makes eight objects, of which register 1 keeps the last one.
///
/// Ids come in order, and a page has eight. So the objects that clients keep lie on pages of their own.
pub(crate) fn begin<C: Client>(client: &mut C) {
    client.ask(&Call::Begin);
    'objects: for _ in 0..8 {
        client.ask(&Call::Make { into: 1 });
    }
}

/// Makes the client's call of this number. Whether it was done.
pub(crate) fn make<C: Client>(client: &mut C, number: u32, mix: Mix) -> bool {
    if mix == Mix::Writes && number % 10 == 0 {
        let value = u64::from(number);
        client.ask(&Call::SetPay { r: 1, value }) == Reply::Done
    } else {
        matches!(client.ask(&Call::GetPay { r: 1 }), Reply::Pay(_))
    }
}

/// Makes all calls of the client. How many were done.
pub(crate) fn work<C: Client + Drop>(mut client: C, mix: Mix) -> u32 {
    let mut done = 0u32;
    'calls: for number in 0..CALLS {
        done = done.saturating_add(u32::from(make(&mut client, number, mix)));
    }
    done
}
