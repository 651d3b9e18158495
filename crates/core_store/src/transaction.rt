//! A transaction, as a journal keeps it.
ghost use Rattle.std.specs.Prelude.{◌≡◌, ℕ, ◌<◌, [], Ok, IfOk, IfErr, IfSome, IsSome, Some, None, length, OnOk, OnErr};
ghost use Rattle.std.specs.Option.{option_map_or};
ghost use Rattle.std.specs.List.{last_or};
ghost use Rattle.core_store.specs.Transactions.{just_begun, held_in, loaded, writing, forgetting, undoing};
ghost use Rattle.core_store.specs.Refusals.{if_no_register, source_of, subject_refusal, HasSubject, HasSource, IsStoreRefusal};

use plain_model::{Memory, Reply, Write};
use std::alloc::Global;
use std::marker::Model;

/// A transaction that has begun and hasn't ended.
#[derive(Debug, Drop)]
pub(crate) struct Transaction {
    registers: [Option<u32>; 8],
    /// What its writes replaced that can be undone and aren't, in order.
    replaced: Vec<Write>,
    aborting: bool,
}

impl Model for Transaction {
    ghost use Rattle.core_store.specs.Transactions.{Running};

    ghost Value = { Running };

    ghost view = { λ a. record { registers = a.registers; replaced = a.replaced.items; aborting = a.aborting } };
}

impl Transaction {
    /// Register 0 holds the root, and the others are empty.
    pub(crate) fn new(alloc: Global) -> Transaction
        ensures { result ≡ just_begun }
    {
        Transaction {
            registers: [Some(1), None, None, None, None, None, None, None],
            replaced: Vec::new(alloc),
            aborting: false,
        }
    }

    pub(crate) fn is_aborting(&self) -> bool
        ensures { result ≡ self.now.aborting }
    {
        self.aborting
    }

    /// How many of its writes can be undone and aren't.
    pub(crate) fn left(&self) -> usize
        ensures { result ≡ length self.now.replaced }
    {
        self.replaced.len()
    }

    /// What the last of its writes replaced that can be undone and isn't.
    pub(crate) fn last_replaced(&self) -> Option<Write>
        ensures { result ≡ last_or None self.now.replaced }
    {
        self.replaced.last().copied()
    }

    pub(crate) fn register(&self, r: u8) -> Option<u32>
        requires { r < 8 }
        ensures { result ≡ held_in self.now r }
    {
        self.registers[r as usize]
    }

    pub(crate) fn registers(&self) -> [Option<u32>; 8]
        ensures { result ≡ self.now.registers }
    {
        self.registers
    }

    /// The id that a register has, or 0 for null; or the refusal where the register is empty.
    pub(crate) fn source(&self, from: Option<u8>) -> Result<u32, Reply>
        requires { IfSome from (λ f. f < 8) }
        ensures ok { IfOk result (λ v. (option_map_or (if_no_register self.now) from None ≡ None) × (v ≡ source_of self.now from)) }
        ensures err { IfErr result (λ reply. option_map_or (if_no_register self.now) from None ≡ Some reply) }
    {
        let Some(f) = from else {
            return Ok(0);
        };
        match self.register(f) {
            Some(id) => Ok(id),
            None => Err(Reply::EmptyRegister { reg: f }),
        }
    }

    /// The object that a register names; or the refusal, the first that applies: the transaction is being undone, the
    /// register is empty.
    pub(crate) fn subject(&self, r: u8) -> Result<u32, Reply>
        requires { r < 8 }
        ensures ok { IfOk result (HasSubject (Some self.now) r) }
        ensures err { IfErr result (λ reply. subject_refusal (Some self.now) r ≡ Some reply) }
    {
        if self.aborting {
            return Err(Reply::Aborting);
        }
        match self.register(r) {
            Some(id) => Ok(id),
            None => Err(Reply::EmptyRegister { reg: r }),
        }
    }

    /// The object that a `Store` changes and the id that it lays; or the refusal, the first that applies.
    pub(crate) fn subject_and_source(&self, r: u8, from: Option<u8>) -> Result<(u32, u32), Reply>
        requires register { r < 8 }
        requires source { IfSome from (λ f. f < 8) }
        ensures ok { IfOk result (λ o. HasSubject (Some self.now) r o.0 × HasSource (Some self.now) from (Ok o.1)) }
        ensures err { IfErr result (IsStoreRefusal (Some self.now) r from) }
    {
        match self.subject(r) {
            Err(reply) => Err(reply),
            Ok(id) => match self.source(from) {
                Err(reply) => Err(reply),
                Ok(target) => Ok((id, target)),
            },
        }
    }

    pub(crate) fn load(&mut self, r: u8, value: Option<u32>)
        requires { r < 8 }
        ensures { self.new ≡ loaded r value self.old }
    {
        self.registers[r as usize] = value;
    }

    /// Notes what one write more replaced. Out of memory is its only error.
    pub(crate) fn note(&mut self, replaced: Write) -> Result<(), Memory>
        ensures ok { OnOk result (self.new ≡ writing replaced self.old) }
        ensures err { OnErr result (self.new ≡ self.old) }
    {
        self.replaced.push(replaced)?;
        Ok(())
    }

    /// Takes back what was noted last.
    pub(crate) fn forget(&mut self)
        ensures { self.new ≡ forgetting self.old }
    {
        self.replaced.pop();
    }

    /// What the last of its writes replaced that wasn't undone: that write is undone now. `None` exactly where nothing
    /// is left to undo.
    pub(crate) fn undo(&mut self) -> Option<Write>
        ensures last { result ≡ last_or None self.old.replaced }
        ensures some { IsSome result → self.new ≡ undoing self.old }
        ensures none { result ≡ None → (self.old.replaced ≡ []) × (self.new ≡ self.old) }
    {
        let replaced = self.replaced.pop()?;
        self.aborting = true;
        Some(replaced)
    }
}
