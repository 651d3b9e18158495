//! A plain ordered map, as contracts see one: pairs of keys and values, ascending by key.
//!
//! Its definitions say what a key has, which pair comes next, and what the pairs are with a key or without one. Its laws are contracts
//! of functions with empty bodies, so that the check accepts this crate only where each law is proved.
#![tactic(auto)]

ghost use Rattle.plain_map.specs.Laws.{value-with, value-with_other, value-without, value-without_other, ascend-with, ascend-without, between-next, between-past, between-none};

/// A key has the value that it was given last, and none once it was taken away. Other keys have what they had.
pub fn keys_have_their_values()
    ensures given { value-with }
    ensures beside { value-with_other }
    ensures taken { value-without }
    ensures left { value-without_other }
{}

/// The keys ascend with a key more, and with one less.
pub fn keys_ascend()
    ensures with { ascend-with }
    ensures without { ascend-without }
{}

/// The pairs between two keys are the next pairs, one after another.
pub fn pairs_between_are_next_pairs()
    ensures next { between-next }
    ensures past { between-past }
    ensures none { between-none }
{}
