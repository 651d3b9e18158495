//! One turn of a generator.
ghost use Rattle.std.specs.Prelude.{◌≡◌, ◌<◌, ◌≤◌, [], true, length, slice_index_or, IfSome, IfNone};
ghost use Rattle.plain_model.specs.Machine.{IsInRange};
ghost use Rattle.call_generator.specs.Draws.{next_number, drawn};
ghost use Rattle.call_generator.specs.Generator.{generating, new_client, has_left, chosen, next_turn, after_turn, waiting, source_of, drawn_slots, drawn_call, call_of_client, turns_left, IsGenerating};

use crate::client::{Client, count_waiting, waiting_at};
use crate::draws::draw;
use plain_model::Call;

/// A turn of a generator.
#[derive(Clone, Copy, PartialEq, Eq, Debug)]
pub struct Turn {
    /// The client whose turn it is: 1 to 64.
    pub client: u8,
    /// What it asks. An abort stands for all steps of it, until the transaction has ended.
    pub call: Call,
    /// Whether the collector makes a step after it.
    pub collects: bool,
}

/// The most calls of a transaction after its begin, but for the commit that ends it then.
const MOST_CALLS: u8 = 64;

/// A slot is drawn of the first so many, whatever slots the objects have besides.
const DRAWN_SLOTS: u64 = 6;

/// The register that a store takes its target from, or none for 8.
fn source_of(number: u64) -> Option<u8>
    requires { number < 9 }
    ensures value { result ≡ source_of number }
    ensures in_range { IfSome result (λ r. r < 8) }
{
    if number == 8 {
        return None;
    }
    Some(number as u8)
}

/// Draws what a client asks in its transaction.
fn draw_call(number: &mut u64) -> Call
    ensures value { (result, number.new) ≡ drawn_call (drawn (next_number number.old) 16) (next_number number.old) }
    ensures in_range { IsInRange drawn_slots result }
{
    match draw(number, 16) {
        0..=2 => Call::Read {
            r: draw(number, 8) as u8,
            slot: draw(number, DRAWN_SLOTS) as u8,
            into: 1 + draw(number, 7) as u8,
        },
        3..=5 => Call::Make {
            into: 1 + draw(number, 7) as u8,
        },
        6..=10 => Call::Store {
            r: draw(number, 8) as u8,
            slot: draw(number, DRAWN_SLOTS) as u8,
            from: source_of(draw(number, 9)),
        },
        11 => Call::GetPay {
            r: draw(number, 8) as u8,
        },
        12 => Call::SetPay {
            r: draw(number, 8) as u8,
            value: draw(number, 1_000_000),
        },
        13..=14 => Call::Commit,
        _ => Call::Abort,
    }
}

/// What a client asks next that has made so many calls since its transaction began, if it is in one.
fn ask(number: &mut u64, calls: Option<u8>) -> Call
    ensures value { (result, number.new) ≡ call_of_client calls number.old }
    ensures in_range { IsInRange drawn_slots result }
{
    match calls {
        None => Call::Begin,
        Some(calls) => {
            if calls >= MOST_CALLS {
                return Call::Commit;
            }
            draw_call(number)
        }
    }
}

/// Draws the client whose turn it is, by its index, where some client has a transaction left.
fn choose(number: &mut u64, clients: &[Client]) -> Option<usize>
    ensures number { IfSome result (λ _. number.new ≡ next_number number.old) }
    ensures chosen { IfSome result (λ i. (waiting clients.now ≡ [] → ⊥) × (i ≡ chosen (generating number.old clients.now))) }
    ensures there { IfSome result (λ i. (i < length clients.now) × (has_left (slice_index_or clients.now i (new_client 0)) ≡ true)) }
    ensures end { IfNone result ((waiting clients.now ≡ []) × (number.new ≡ number.old)) }
{
    let waiting = count_waiting(clients);
    if waiting == 0 {
        return None;
    }
    let place = draw(number, waiting as u64) as usize;
    Some(waiting_at(clients, place))
}

/// Makes the next turn, where some client has a transaction left.
pub(crate) fn next_turn(number: &mut u64, clients: &mut Vec<Client>) -> Option<Turn>
    requires { IsGenerating (generating number.old clients.old.items) }
    ensures turn { IfSome result (λ t. (waiting clients.old.items ≡ [] → ⊥)
        × (t ≡ next_turn (generating number.old clients.old.items))
        × (generating number.new clients.new.items ≡ after_turn (generating number.old clients.old.items))) }
    ensures end { IfNone result ((waiting clients.old.items ≡ []) × (number.new ≡ number.old) × (clients.new ≡ clients.old)) }
    ensures in_range { IfSome result (λ t. (1 ≤ t.client) × (t.client ≤ 64) × IsInRange drawn_slots t.call) }
    ensures goes_on { IsGenerating (generating number.new clients.new.items) }
    ensures fewer { IfSome result (λ _. turns_left (generating number.new clients.new.items) < turns_left (generating number.old clients.old.items)) }
{
    let Some(index) = choose(number, clients.as_slice()) else {
        return None;
    };
    let call = ask(number, clients[index].calls);
    clients[index] = clients[index].after(&call);
    let collects = draw(number, 4) <= 1;
    Some(Turn {
        client: index as u8 + 1,
        call,
        collects,
    })
}
