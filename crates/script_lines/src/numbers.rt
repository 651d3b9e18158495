//! What a field spells.
ghost use Rattle.std.specs.Prelude.{◌≡◌, ◌<◌, ◌≤◌, ◌^◌, ◌+◌, ◌*◌, IsTrue, SomeIff, IfSome};
ghost use Rattle.std.specs.Char.{is_ascii_digit, digit_value};
ghost use Rattle.script_lines.specs.Numbers.{object_slots, number_within, client_of, register_of, slot_of, page_of, pick_of, pages_of, seed_of, clients_of, transactions_of, payload_of, source_of};
ghost use Rattle.script_lines.specs.Grammar.{IsClient};

/// How many slots an object of the program's store has: a slot is a number below this.
pub const SLOTS: usize = 14;

/// The most digits that a number may have.
const MAX_DIGITS: usize = 20;

/// The number with one more digit after it, where it is below 2^64.
#[inline(always)]
fn with_digit(number: u64, digit: u8) -> Option<u64>
    requires { IsTrue (is_ascii_digit digit) }
    ensures { SomeIff result (number * 10 + digit_value digit < 2 ^ 64) (number * 10 + digit_value digit) }
{
    number.checked_mul(10)?.checked_add(u64::from(digit - b'0'))
}

/// The number that a field spells, where it is below 2^64.
#[inline(always)]
pub(crate) fn payload_of(field: &[u8]) -> Option<u64>
    ensures { result ≡ payload_of field.now }
{
    if field.is_empty() || field.len() > MAX_DIGITS {
        return None;
    }
    let mut number = 0;
    for digit in field {
        if !digit.is_ascii_digit() {
            return None;
        }
        number = with_digit(number, *digit)?;
    }
    Some(number)
}

/// The number that a field spells, where it is at least `low` and below `limit`.
fn number_within(low: u64, limit: u64, field: &[u8]) -> Option<u64>
    ensures value { result ≡ number_within low limit field.now }
    ensures within { IfSome result (λ n. (low ≤ n) × (n < limit)) }
{
    let number = payload_of(field)?;
    if number < low || number >= limit {
        return None;
    }
    Some(number)
}

/// The number below `limit` that a field spells, which mostly is one digit.
#[inline(always)]
fn number_below(limit: u8, field: &[u8]) -> Option<u8>
    ensures value { result ≡ number_within 0 limit field.now }
    ensures below { IfSome result (λ n. n < limit) }
{
    match field {
        [digit] if b'0' <= *digit && *digit <= b'9' && *digit - b'0' < limit => Some(*digit - b'0'),
        _ => Some(number_within(0, u64::from(limit), field)? as u8),
    }
}

/// The client that a field names.
#[inline(always)]
pub(crate) fn client_of(field: &[u8]) -> Option<u8>
    ensures value { result ≡ client_of field.now }
    ensures within { IfSome result (λ c. IsClient c) }
{
    match field {
        [digit] if b'1' <= *digit && *digit <= b'9' => Some(*digit - b'0'),
        _ => Some(number_within(1, 65, field)? as u8),
    }
}

/// The register that a field names.
#[inline(always)]
pub(crate) fn register_of(field: &[u8]) -> Option<u8>
    ensures value { result ≡ register_of field.now }
    ensures below { IfSome result (λ r. r < 8) }
{
    number_below(8, field)
}

/// The slot that a field names.
#[inline(always)]
pub(crate) fn slot_of(field: &[u8]) -> Option<u8>
    ensures value { result ≡ slot_of field.now }
    ensures below { IfSome result (λ s. s < object_slots) }
{
    number_below(SLOTS as u8, field)
}

/// The page that a field names: 0 to 1,023, whether or not a store has it.
pub(crate) fn page_of(field: &[u8]) -> Option<u16>
    ensures { result ≡ page_of field.now }
{
    Some(number_within(0, 1024, field)? as u16)
}

/// The pick that a field names.
pub(crate) fn pick_of(field: &[u8]) -> Option<u32>
    ensures { result ≡ pick_of field.now }
{
    Some(number_within(0, 4_294_967_296, field)? as u32)
}

/// The number of pages that a word names: 1 to 1,024.
pub fn pages_of(word: &[u8]) -> Option<u16>
    ensures value { result ≡ pages_of word.now }
    ensures within { IfSome result (λ n. (1 ≤ n) × (n ≤ 1024)) }
{
    Some(number_within(1, 1025, word)? as u16)
}

/// The seed that a word names: below 2^64.
pub fn seed_of(word: &[u8]) -> Option<u64>
    ensures { result ≡ seed_of word.now }
{
    payload_of(word)
}

/// The number of clients that a word names: 1 to 64.
pub fn clients_of(word: &[u8]) -> Option<u8>
    ensures value { result ≡ clients_of word.now }
    ensures within { IfSome result (λ n. (1 ≤ n) × (n ≤ 64)) }
{
    Some(number_within(1, 65, word)? as u8)
}

/// The number of transactions that a word names: 0 to 1,000.
pub fn transactions_of(word: &[u8]) -> Option<u16>
    ensures value { result ≡ transactions_of word.now }
    ensures within { IfSome result (λ n. n ≤ 1000) }
{
    Some(number_within(0, 1001, word)? as u16)
}

/// What a slot is to hold: the id in a register, or nothing for `-`.
#[inline(always)]
pub(crate) fn source_of(field: &[u8]) -> Option<Option<u8>>
    ensures value { result ≡ source_of field.now }
    ensures below { IfSome result (λ f. IfSome f (λ r. r < 8)) }
{
    match field {
        b"-" => Some(None),
        _ => Some(Some(register_of(field)?)),
    }
}
