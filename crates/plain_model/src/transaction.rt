//! Active transactions.
ghost use Rattle.std.specs.Prelude.{◌≡◌, ◌<◌, IfOk, IfErr, IfSome, Some, None, ◌||◌, true};
ghost use Rattle.std.specs.Option.{option_map_or};
ghost use Rattle.plain_model.specs.Graphs.{applied, FitsPlace};
ghost use Rattle.plain_model.specs.Machine.{new_transaction, register, register_id, with_id, with_owned, with_register, with_write, is_among, if_empty, only_shares, with_shared, without_id, without_shared, nonzero};

use crate::calls::Reply;
use crate::graph::Graph;
use crate::memory::Memory;
use crate::write::Write;
use std::alloc::Global;
use std::marker::Model;

/// An active transaction: its writes, locks and registers.
#[derive(Debug, Drop)]
pub struct Transaction {
    writes: Vec<Write>,
    shared: Vec<u32>,
    owned: Vec<u32>,
    registers: [Option<u32>; 8],
    aborting: bool,
}

impl Model for Transaction {
    ghost use Rattle.plain_model.specs.ActiveTransaction.{ActiveTransaction};

    ghost Value = { ActiveTransaction };

    ghost view = { λ a. record { writes = a.writes.items; shared = a.shared.items; owned = a.owned.items; registers = a.registers; aborting = a.aborting } };

    ghost use Rattle.plain_model.specs.Graphs.{FitPlaces};

    ghost invariant = { λ a. FitPlaces a.writes.items };
}

/// The list with the id at its end, where it wasn't in it.
fn with_id(alloc: Global, ids: &[u32], id: u32) -> Result<Vec<u32>, Memory>
    ensures { IfOk result (λ v. v.items ≡ with_id id ids.now) }
{
    let mut v = Vec::from_slice(alloc, ids)?;
    if !ids.contains(&id) {
        v.push(id)?;
    }
    Ok(v)
}

/// The list without the id.
fn without_id(alloc: Global, ids: &[u32], id: u32) -> Result<Vec<u32>, Memory>
    ensures { IfOk result (λ v. v.items ≡ without_id id ids.now) }
{
    let left = ids
        .iter()
        .copied()
        .filter(|other| *other != id)
        .collect(alloc)?;
    Ok(left)
}

impl Transaction {
    /// A transaction that has just begun.
    pub(crate) fn new(alloc: Global) -> Transaction
        ensures { result ≡ new_transaction }
    {
        Transaction {
            writes: Vec::new(alloc),
            shared: Vec::new(alloc),
            owned: Vec::new(alloc),
            registers: [Some(1), None, None, None, None, None, None, None],
            aborting: false,
        }
    }

    /// The id in the register, where it isn't empty.
    pub(crate) fn register(&self, r: u8) -> Option<u32>
        requires { r < 8 }
        ensures { result ≡ register self.now r }
    {
        self.registers[r as usize]
    }

    /// What a slot is to be set to: the id in the register, or 0 without one; or else the refusal of an empty register.
    pub(crate) fn source(&self, from: Option<u8>) -> Result<u32, Reply>
        requires { IfSome from (λ f. f < 8) }
        ensures ok { IfOk result (λ v. (option_map_or (if_empty self.now) from None ≡ None) × (v ≡ option_map_or (register_id self.now) from 0)) }
        ensures err { IfErr result (λ reply. option_map_or (if_empty self.now) from None ≡ Some reply) }
    {
        let Some(f) = from else {
            return Ok(0);
        };
        match self.register(f) {
            Some(id) => Ok(id),
            None => Err(Reply::EmptyRegister { reg: f }),
        }
    }

    /// Whether it owns or shares the object.
    pub(crate) fn holds(&self, id: u32) -> bool
        ensures { result ≡ (is_among id self.now.owned || is_among id self.now.shared) }
    {
        self.owned.contains(&id) || self.shared.contains(&id)
    }

    /// Whether it is being undone.
    pub(crate) fn is_aborting(&self) -> bool
        ensures { result ≡ self.now.aborting }
    {
        self.aborting
    }

    /// The transaction after it owned the object and wrote to it.
    pub(crate) fn with_write(&self, alloc: Global, write: Write) -> Result<Transaction, Memory>
        requires { FitsPlace write.place write.value }
        ensures { IfOk result (λ t. t ≡ with_write write.id write.place write.value (with_owned write.id self.now)) }
    {
        let owned = with_id(alloc, self.owned.as_slice(), write.id)?;
        let shared = Vec::from_slice(alloc, self.shared.as_slice())?;
        let mut writes = Vec::from_slice(alloc, self.writes.as_slice())?;
        writes.push(write)?;
        Ok(Transaction {
            writes,
            shared,
            owned,
            registers: self.registers,
            aborting: self.aborting,
        })
    }

    /// The graph after its writes.
    pub(crate) fn graph_after(
        &self,
        alloc: Global,
        slots: u8,
        graph: &Graph,
    ) -> Result<Graph, Memory>
        ensures { IfOk result (λ g. g ≡ applied slots graph.now self.now.writes) }
    {
        graph.after(alloc, slots, self.writes.as_slice())
    }

    /// The transaction after it shared the object.
    pub(crate) fn with_share(&self, alloc: Global, id: u32) -> Result<Transaction, Memory>
        ensures { IfOk result (λ t. t ≡ with_shared id self.now) }
    {
        let shared = with_id(alloc, self.shared.as_slice(), id)?;
        let owned = Vec::from_slice(alloc, self.owned.as_slice())?;
        let writes = Vec::from_slice(alloc, self.writes.as_slice())?;
        Ok(Transaction {
            writes,
            shared,
            owned,
            registers: self.registers,
            aborting: self.aborting,
        })
    }

    /// Whether it shares the object and doesn't own it.
    pub(crate) fn only_shares(&self, id: u32) -> bool
        ensures { result ≡ only_shares id self.now }
    {
        self.shared.contains(&id) && !self.owned.contains(&id)
    }

    /// The transaction after it gave its share of the object back.
    pub(crate) fn without_share(&self, alloc: Global, id: u32) -> Result<Transaction, Memory>
        ensures { IfOk result (λ t. t ≡ without_shared id self.now) }
    {
        let shared = without_id(alloc, self.shared.as_slice(), id)?;
        let owned = Vec::from_slice(alloc, self.owned.as_slice())?;
        let writes = Vec::from_slice(alloc, self.writes.as_slice())?;
        Ok(Transaction {
            writes,
            shared,
            owned,
            registers: self.registers,
            aborting: self.aborting,
        })
    }

    /// Whether it owns the object.
    pub(crate) fn owns(&self, id: u32) -> bool
        ensures { result ≡ is_among id self.now.owned }
    {
        self.owned.contains(&id)
    }

    /// Marks it as being undone.
    pub(crate) fn mark(&mut self)
        ensures { self.new ≡ record self.old { aborting = true } }
    {
        self.aborting = true;
    }

    /// Loads the id into the register, or empties it.
    pub(crate) fn load(&mut self, r: u8, value: Option<u32>)
        requires { r < 8 }
        ensures { self.new ≡ with_register r value self.old }
    {
        self.registers[r as usize] = value;
    }
}

/// What a register holds after a slot was read into it: 0 empties it.
pub(crate) fn nonzero(id: u32) -> Option<u32>
    ensures { result ≡ nonzero id }
{
    if id == 0 { None } else { Some(id) }
}
