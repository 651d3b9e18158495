//! The generator.
ghost use Rattle.std.specs.Prelude.{◌≡◌, ◌<◌, ◌≤◌, [], IfOk, IfSome, IfNone};
ghost use Rattle.plain_model.specs.Machine.{IsInRange};
ghost use Rattle.call_generator.specs.Generator.{generator, drawn_slots, waiting, next_turn, after_turn, turns_left};

use crate::client::Client;
use crate::turns::{Turn, next_turn};
use plain_model::Memory;
use std::alloc::Global;
use std::marker::Model;

/// Generated calls of some clients, of which each has some transactions.
#[derive(Debug, Drop)]
pub struct Generator {
    /// The number that was drawn from last.
    number: u64,
    /// The clients, in ascending order from client 1 on.
    clients: Vec<Client>,
}

/// Contracts see the numbers.
impl Model for Generator {
    ghost use Rattle.call_generator.specs.Generator.{Generating, IsGenerating};

    ghost Value = { Generating };

    ghost view = { λ g. record { number = g.number; clients = g.clients.items } };

    ghost invariant = { λ g. IsGenerating (record { number = g.number; clients = g.clients.items }) };
}

impl Generator {
    /// The calls of this seed.
    pub fn new(
        alloc: Global,
        seed: u64,
        clients: u8,
        transactions: u16,
    ) -> Result<Generator, Memory>
        requires { clients ≤ 64 }
        ensures { IfOk result (λ g. g ≡ generator seed clients transactions) }
    {
        let client = Client {
            left: transactions,
            calls: None,
        };
        Ok(Generator {
            number: seed,
            clients: vec![in alloc; client; clients as usize]?,
        })
    }

    /// The next turn, where some client has a transaction left.
    pub fn next(&mut self) -> Option<Turn>
        ensures turn { IfSome result (λ t. (waiting self.old.clients ≡ [] → ⊥) × (t ≡ next_turn self.old) × (self.new ≡ after_turn self.old)) }
        ensures end { IfNone result ((waiting self.old.clients ≡ []) × (self.new ≡ self.old)) }
        ensures in_range { IfSome result (λ t. (1 ≤ t.client) × (t.client ≤ 64) × IsInRange drawn_slots t.call) }
        ensures fewer { IfSome result (λ _. turns_left self.new < turns_left self.old) }
    {
        next_turn(&mut self.number, &mut self.clients)
    }
}
