//! A set of clients, one bit for each.
ghost use Rattle.std.specs.Prelude.{◌≡◌, ◌≢◌, ℕ, ◌<◌, ◌||◌, ◌&&◌, ◌==◌, not, true, false};
ghost use Rattle.strict_locks.specs.ClientSet.{has_bit, is_in};
ghost use Rattle.strict_locks.specs.Locks.{IsLeastOrNone};

/// Whether the word has the bit.
fn has(word: u128, place: u8) -> bool
    requires { place < 128 }
    ensures { result ≡ has_bit word place }
{
    (word >> place) & 1 == 1
}

/// The word with the bit.
fn with(word: u128, place: u8) -> u128
    requires { place < 128 }
    ensures { (i : ℕ) → has_bit result i ≡ (i == place || has_bit word i) }
{
    word | (1u128 << place)
}

/// The word without the bit.
fn without(word: u128, place: u8) -> u128
    requires { place < 128 }
    ensures { (i : ℕ) → i < 128 → has_bit result i ≡ (not (i == place) && has_bit word i) }
{
    word & !(1u128 << place)
}

/// The lowest bit of the word.
fn lowest(word: u128) -> Option<u8>
    ensures { IsLeastOrNone (λ i. (i < 128) × (has_bit word i ≡ true)) result }
{
    if word == 0 {
        return None;
    }
    Some(word.trailing_zeros() as u8)
}

/// Clients, by their numbers. Each call costs the same however many there are, and takes no memory.
#[derive(Clone, Copy, PartialEq, Eq, Debug)]
pub(crate) struct ClientSet {
    /// A bit for each client below 128.
    low: u128,
    /// A bit for each client from 128 on.
    high: u128,
}

impl ClientSet {
    /// The set without a client.
    pub(crate) fn new() -> ClientSet
        ensures { (p : ℕ) → is_in result p ≡ false }
    {
        ClientSet { low: 0, high: 0 }
    }

    /// Whether the client is in the set.
    pub(crate) fn contains(&self, client: u8) -> bool
        ensures { result ≡ is_in self.now client }
    {
        if client < 128 {
            has(self.low, client)
        } else {
            has(self.high, client - 128)
        }
    }

    /// Adds the client.
    pub(crate) fn insert(&mut self, client: u8)
        ensures { (p : ℕ) → is_in self.new p ≡ (p == client || is_in self.old p) }
    {
        if client < 128 {
            self.low = with(self.low, client);
        } else {
            self.high = with(self.high, client - 128);
        }
    }

    /// Takes the client out.
    pub(crate) fn remove(&mut self, client: u8)
        ensures { (p : ℕ) → is_in self.new p ≡ (not (p == client) && is_in self.old p) }
    {
        if client < 128 {
            self.low = without(self.low, client);
        } else {
            self.high = without(self.high, client - 128);
        }
    }

    /// The least client of the set.
    pub(crate) fn first(&self) -> Option<u8>
        ensures { IsLeastOrNone (λ p. is_in self.now p ≡ true) result }
    {
        match lowest(self.low) {
            Some(client) => Some(client),
            None => Some(lowest(self.high)? + 128),
        }
    }

    /// The least client of the set, but for this one.
    pub(crate) fn first_but(&self, client: u8) -> Option<u8>
        ensures { IsLeastOrNone (λ p. (p ≢ client) × (is_in self.now p ≡ true)) result }
    {
        let mut others = *self;
        others.remove(client);
        others.first()
    }
}
