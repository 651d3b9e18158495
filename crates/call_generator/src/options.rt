//! What `gen` is asked.
ghost use Rattle.std.specs.Prelude.{◌≡◌, IfOk, map, string_bytes};
ghost use Rattle.call_generator.specs.Options.{asked_of};
ghost use Rattle.call_generator.specs.GenCommand.{asked_in};

use crate::parsed::parsed;
use clap::ArgMatches;
use script_lines::{clients_of, seed_of, transactions_of};
use std::alloc::{AllocError, Global};

/// What `gen` is asked: calls of this seed, of so many clients, of which each has so many transactions.
#[derive(Clone, Copy, PartialEq, Eq, Debug)]
pub struct Asked {
    /// What the calls are drawn from.
    pub seed: u64,
    /// How many clients there are, from 1 to 64.
    pub clients: u8,
    /// How many transactions each client has, up to 1,000.
    pub transactions: u16,
}

/// The most transactions of all clients.
const MOST_TRANSACTIONS: u32 = 2_000;

/// What the values ask, where each is a number in its range.
fn asked_in(matches: &ArgMatches<'_>) -> Option<Asked>
    ensures { result ≡ asked_in matches.now }
{
    let asked = Asked {
        seed: seed_of(matches.get_str("seed")?.as_bytes())?,
        clients: clients_of(matches.get_str("clients")?.as_bytes())?,
        transactions: transactions_of(matches.get_str("txns")?.as_bytes())?,
    };
    if u32::from(asked.clients) * u32::from(asked.transactions) > MOST_TRANSACTIONS {
        return None;
    }
    Some(asked)
}

/// What the words after `gen` ask, where they have a reading. `Err` is want of memory.
pub fn asked_of(alloc: Global, words: &[String]) -> Result<Option<Asked>, AllocError>
    ensures value { IfOk result (λ asked. asked ≡ asked_of (map string_bytes words.now)) }
{
    match parsed(alloc, words)? {
        Some(matches) => Ok(asked_in(&matches)),
        None => Ok(None),
    }
}
