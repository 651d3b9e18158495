//! Marks of ids, in words with the marks of 64 ids each.
ghost use Rattle.std.specs.Prelude.{◌≡◌, ◌≢◌, ◌<◌, ◌≤◌, ◌+◌, ◌*◌, ◌/◌, ◌==◌, ◌&&◌, ◌||◌, ℕ, true, not, length};
ghost use Rattle.par_audit.specs.Marks.{has_bit, has_id, is_marked};

/// How many words have the marks of so many ids, and of 0, which is no id.
pub(crate) fn words_for(ids: usize) -> usize
    ensures { result ≡ ids / 64 + 1 }
{
    ids / 64 + 1
}

/// The word with the bit.
#[tactic(auto, using(crate::proofs::MarkLaws::bit_with))]
#[inline(always)]
pub(crate) fn with(word: u64, bit: u32) -> u64
    requires { bit < 64 }
    ensures { (i : ℕ) → has_bit result i ≡ (has_bit word i || (bit == i)) }
{
    word | (1u64 << bit)
}

/// The word without the bit.
#[tactic(auto, using(crate::proofs::MarkLaws::bit_without, crate::proofs::MarkLaws::less_without))]
#[inline(always)]
pub(crate) fn without(word: u64, bit: u32) -> u64
    requires { bit < 64 }
    ensures less { has_bit word bit ≡ true → result < word }
    ensures each { (i : ℕ) → i < 64 → has_bit result i ≡ (has_bit word i && not (bit == i)) }
{
    word & !(1u64 << bit)
}

/// The lowest bit of a word that has one.
#[tactic(auto, using(crate::proofs::MarkLaws::bit_lowest))]
#[inline(always)]
pub(crate) fn lowest(word: u64) -> u32
    requires { word ≢ 0 }
    ensures within { result < 64 }
    ensures has { has_bit word result ≡ true }
{
    word.trailing_zeros()
}

/// Whether the word has the bit.
#[inline(always)]
fn has(word: u64, bit: u32) -> bool
    requires { bit < 64 }
    ensures { result ≡ has_bit word bit }
{
    (word >> bit) & 1 == 1
}

/// Whether the id is marked.
#[tactic(auto, using(crate::proofs::MarkLaws::mark_bit, crate::proofs::MarkLaws::mark_past))]
#[inline(always)]
pub(crate) fn has_mark(words: &[u64], id: u32) -> bool
    ensures { result ≡ is_marked words.now id }
{
    let at = (id / 64) as usize;
    at < words.len() && has(words[at], id % 64)
}

/// Takes the mark of the id away.
#[tactic(auto, using(crate::proofs::MarkLaws::mark_clear, crate::proofs::MarkLaws::mark_none))]
#[inline(always)]
pub(crate) fn clear_mark(words: &mut [u64], id: u32)
    ensures len { length words.new ≡ length words.old }
    ensures each { (x : ℕ) → is_marked words.new x ≡ (is_marked words.old x && not (id == x)) }
{
    let at = (id / 64) as usize;
    if at < words.len() {
        words[at] = without(words[at], id % 64);
    }
}

/// Whether the table has the id.
#[inline(always)]
fn has_id(table: &[bool], id: usize) -> bool
    ensures { result ≡ has_id table.now id }
{
    id < table.len() && table[id]
}

/// The marks of those ids of a word that the table has.
#[inline(always)]
fn packed(table: &[bool], at: usize) -> u64
    requires { at ≤ 262144 }
    ensures { (bit : ℕ) → bit < 64 → has_bit result bit ≡ has_id table.now (64 * at + bit) }
{
    let mut word = 0;
    for bit in 0..64u32 {
        if has_id(table, 64 * at + bit as usize) {
            word = with(word, bit);
        }
    }
    word
}

/// Marks the ids that the table has, and no other.
pub(crate) fn pack(words: &mut [u64], table: &[bool])
    requires few { length words.old ≤ 262145 }
    requires wide { length table.now ≤ 64 * length words.old }
    ensures len { length words.new ≡ length words.old }
    ensures each { (id : ℕ) → is_marked words.new id ≡ has_id table.now id }
{
    for at in 0..words.len() {
        words[at] = packed(table, at);
    }
}

/// Marks what the other words mark.
#[tactic(auto, using(crate::proofs::MarkLaws::mark_or))]
pub(crate) fn add_marks(words: &mut [u64], others: &[u64])
    requires { length others.now ≡ length words.old }
    ensures len { length words.new ≡ length words.old }
    ensures each { (id : ℕ) → is_marked words.new id ≡ (is_marked words.old id || is_marked others.now id) }
{
    for at in 0..words.len() {
        words[at] |= others[at];
    }
}
