//! A gate that holds calls of clients until others were answered.

use client_pass::Gate;
use std::sync::atomic::{AtomicU64, Ordering};
use std::thread;

/// How often a call that is held looks whether it may go on. After that it was held in vain.
const MOST_TURNS: u64 = 2_000_000;

/// A client's call, counted from 1.
#[derive(Clone, Copy, PartialEq, Eq, Debug)]
struct Made {
    client: u8,
    number: u32,
}

/// A call that is held until another client's call was answered.
#[derive(Drop)]
struct Held {
    call: Made,
    until: Made,
    is_free: AtomicU64,
}

impl Held {
    /// The other call was not answered yet.
    fn new(call: Made, until: Made) -> Held {
        Held {
            call,
            until,
            is_free: AtomicU64::new(0),
        }
    }

    /// Waits until the other call was answered. Tells whether it was.
    fn wait(&self) -> bool {
        'turns: for _ in 0..MOST_TURNS {
            if self.is_free.load(Ordering::SeqCst) != 0 {
                return true;
            }
            thread::yield_now();
        }
        false
    }

    /// Holds the call, if it is this one. Tells whether it was held in vain.
    fn misses(&self, call: Made) -> bool {
        self.call == call && !self.wait()
    }

    /// Lets the held call go on, if the call that was answered is the other one.
    fn free(&self, answered: Made) {
        if self.until == answered {
            self.is_free.store(1, Ordering::SeqCst);
        }
    }
}

/// Holds two calls, each until another one was answered.
#[derive(Drop)]
pub(crate) struct HeldCalls {
    first: Held,
    second: Held,
    missed: AtomicU64,
}

/// The client's call of this number is held until the other client's call was answered.
fn hold_until(call: (u8, u32), until: (u8, u32)) -> Held {
    Held::new(
        Made {
            client: call.0,
            number: call.1,
        },
        Made {
            client: until.0,
            number: until.1,
        },
    )
}

/// Each client's second call waits until the other's first one was answered.
pub(crate) fn each_second_call() -> HeldCalls {
    HeldCalls {
        first: hold_until((1, 2), (2, 1)),
        second: hold_until((2, 2), (1, 1)),
        missed: AtomicU64::new(0),
    }
}

impl HeldCalls {
    /// Whether a call was held in vain.
    pub(crate) fn has_missed(&self) -> bool {
        self.missed.load(Ordering::SeqCst) != 0
    }
}

impl Gate for HeldCalls {
    fn before(&self, pass: u8, n: u32) {
        let call = Made {
            client: pass,
            number: n,
        };
        if self.first.misses(call) || self.second.misses(call) {
            self.missed.store(1, Ordering::SeqCst);
        }
    }

    fn after(&self, pass: u8, n: u32) {
        let answered = Made {
            client: pass,
            number: n,
        };
        self.first.free(answered);
        self.second.free(answered);
    }
}
