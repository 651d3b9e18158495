//! How many pointers lead to each object of a round that no copied slot shows.
ghost use Rattle.std.specs.Prelude.{◌≡◌, ℕ, ◌+◌, ◌-◌, ◌<◌, ◌≤◌, ◌==◌, [], ◌∷◌, length, slice_index, slice_index_or, count_by};
ghost use Rattle.store_model.specs.Core.{Copy};
ghost use Rattle.store_model.specs.Verdict.{copied_names};
ghost use Rattle.green_walk.specs.Judged.{pointers_of};

use red_walk::Red;

/// Notes at the place of each object how many pointers its copy counts.
fn note_counted<const SLOTS: usize>(others: &mut Vec<u64>, red: &Red<SLOTS>)
    requires room { length red.now.list ≤ length others.old.items }
    requires copied { length red.now.list ≤ length red.now.copies }
    ensures counted { (place : ℕ) (d : ℕ × Copy) → place < length red.now.list → slice_index others.new.items place ≡ pointers_of (slice_index_or red.now.copies place d) }
    ensures len { length others.new.items ≡ length others.old.items }
{
    let list = red.list();
    for place in 0..list.len() {
        others[place] = red.pointers(place);
    }
}

/// Takes off the pointer that a slot with this target shows.
fn take_off_one<const SLOTS: usize>(others: &mut Vec<u64>, red: &Red<SLOTS>, target: u32)
    requires room { length red.now.list ≤ length others.old.items }
    ensures less { (place : ℕ) → place < length red.now.list → slice_index others.new.items place ≡ slice_index others.old.items place - count_by (λ t. t == slice_index red.now.list place) (target ∷ []) }
    ensures len { length others.new.items ≡ length others.old.items }
{
    if let Some(place) = red.place(target) {
        others[place] = others[place].saturating_sub(1);
    }
}

/// Takes off the pointers that these slots show.
fn take_off<const SLOTS: usize>(others: &mut Vec<u64>, red: &Red<SLOTS>, slots: &[u32])
    requires room { length red.now.list ≤ length others.old.items }
    ensures less { (place : ℕ) → place < length red.now.list → slice_index others.new.items place ≡ slice_index others.old.items place - count_by (λ t. t == slice_index red.now.list place) slots.now }
    ensures len { length others.new.items ≡ length others.old.items }
{
    for target in slots {
        take_off_one(others, red, *target);
    }
}

/// Takes off the pointers that the copied slots show.
fn take_off_all<const SLOTS: usize>(others: &mut Vec<u64>, red: &Red<SLOTS>)
    requires room { length red.now.list ≤ length others.old.items }
    requires copied { length red.now.list ≡ length red.now.copies }
    ensures less { (place : ℕ) → place < length red.now.list → slice_index others.new.items place ≡ slice_index others.old.items place - copied_names red.now.copies (slice_index red.now.list place) }
    ensures len { length others.new.items ≡ length others.old.items }
{
    let list = red.list();
    for place in 0..list.len() {
        take_off(others, red, red.targets(place));
    }
}

/// Notes at the place of each object how many pointers its copy counts that no copied slot shows.
pub(crate) fn note_others<const SLOTS: usize>(others: &mut Vec<u64>, red: &Red<SLOTS>)
    requires room { length red.now.list ≤ length others.old.items }
    requires copied { length red.now.list ≡ length red.now.copies }
    ensures others { (place : ℕ) (d : ℕ × Copy) → place < length red.now.list → slice_index others.new.items place ≡ pointers_of (slice_index_or red.now.copies place d) - copied_names red.now.copies (slice_index red.now.list place) }
    ensures len { length others.new.items ≡ length others.old.items }
{
    note_counted(others, red);
    take_off_all(others, red);
}
