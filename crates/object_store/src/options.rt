//! How a store is made and opened.
ghost use Rattle.std.specs.Prelude.{◌≡◌, ◌≤◌, ◌/◌, min, max};
ghost use Rattle.core_store.specs.Limited.{AreLimits};

use crate::tending::Tending;
use core_store::Limits;

/// How a store is made and opened: how many pages a new one has, how long its history and its log may get, and what it sees to by itself.
#[derive(Clone, Copy)]
pub struct Options {
    pages: u16,
    limits: Limits,
    tending: Tending,
    ghost some: { 1 ≤ pages },
    ghost few: { pages ≤ 1024 },
    ghost within: { AreLimits limits },
}

impl Options {
    /// A new store has 1,024 pages, which is the most, with eight objects each. The limits are the greatest: 1,048,576 entries of history,
    /// and 1,071,644,672 bytes of log. Half of these is the soft limit. A commit makes 16 steps of the collector.
    pub fn new() -> Options
        ensures pages { result.pages ≡ 1024 }
        ensures limits { result.limits ≡ record { trace = 1048576; log = 1071644672 } }
        ensures soft_limit { result.tending.log ≡ 535822336 }
        ensures steps { result.tending.steps ≡ 16 }
    {
        Limits::greatest();
        Options {
            pages: 1024,
            limits: Limits::GREATEST,
            tending: Tending {
                log: 535_822_336,
                steps: 16,
                begun: 0,
            },
        }
    }

    /// The same with so many pages for a new store: at least one, and 1,024 at most.
    pub fn with_pages(self, pages: u16) -> Options
        ensures pages { result.pages ≡ min (max pages 1) 1024 }
        ensures limits { result.limits ≡ self.limits }
        ensures tending { result.tending ≡ self.tending }
    {
        Options {
            pages: pages.max(1).min(1024),
            limits: self.limits,
            tending: self.tending,
        }
    }

    /// The same with a limit of so many entries for the history, where that isn't above the greatest.
    pub fn with_history_limit(self, entries: u64) -> Options
        ensures pages { result.pages ≡ self.pages }
        ensures limits { result.limits ≡ record self.limits { trace = min entries 1048576 } }
        ensures tending { result.tending ≡ self.tending }
    {
        Options {
            pages: self.pages,
            limits: Limits {
                trace: entries.min(1_048_576),
                log: self.limits.log,
            },
            tending: self.tending,
        }
    }

    /// The same with a limit of so many bytes for the log, where that isn't above the greatest. Half of it is the soft limit.
    pub fn with_log_limit(self, bytes: u64) -> Options
        ensures pages { result.pages ≡ self.pages }
        ensures limits { result.limits ≡ record self.limits { log = min bytes 1071644672 } }
        ensures soft_limit { result.tending.log ≡ min bytes 1071644672 / 2 }
        ensures steps { result.tending.steps ≡ self.tending.steps }
    {
        let most = bytes.min(1_071_644_672);
        Options {
            pages: self.pages,
            limits: Limits {
                trace: self.limits.trace,
                log: most,
            },
            tending: Tending {
                log: most / 2,
                steps: self.tending.steps,
                begun: 0,
            },
        }
    }

    /// The same with a soft limit of so many bytes for the log: where more are in use, a checkpoint is made before a transaction begins.
    pub fn with_soft_log_limit(self, bytes: u64) -> Options
        ensures pages { result.pages ≡ self.pages }
        ensures limits { result.limits ≡ self.limits }
        ensures soft_limit { result.tending.log ≡ bytes }
        ensures steps { result.tending.steps ≡ self.tending.steps }
    {
        Options {
            pages: self.pages,
            limits: self.limits,
            tending: Tending {
                log: bytes,
                steps: self.tending.steps,
                begun: 0,
            },
        }
    }

    /// The same with so many steps of the collector after a commit.
    pub fn with_collector_steps(self, steps: u32) -> Options
        ensures pages { result.pages ≡ self.pages }
        ensures limits { result.limits ≡ self.limits }
        ensures soft_limit { result.tending.log ≡ self.tending.log }
        ensures steps { result.tending.steps ≡ steps }
    {
        Options {
            pages: self.pages,
            limits: self.limits,
            tending: Tending {
                log: self.tending.log,
                steps,
                begun: 0,
            },
        }
    }

    /// The number of pages.
    pub(crate) fn pages(self) -> u16
        ensures value { result ≡ self.pages }
        ensures some { 1 ≤ result }
        ensures few { result ≤ 1024 }
    {
        self.pages
    }

    /// The limits.
    pub(crate) fn limits(self) -> Limits
        ensures value { result ≡ self.limits }
        ensures within { AreLimits result }
    {
        self.limits
    }

    /// What the store sees to by itself.
    pub(crate) fn tending(self) -> Tending
        ensures { result ≡ self.tending }
    {
        self.tending
    }
}
