//! The objects of two graphs under one id.
ghost use Rattle.std.specs.Prelude.{◌≡◌, ◌↔◌, true};
ghost use Rattle.std.specs.Option.{option_copied};
ghost use Rattle.plain_model.specs.Graphs.{IsGraph, object_at};
ghost use Rattle.log_checker.specs.Differences.{HaveSame};

use plain_model::Object;

/// The object with this id.
fn find(items: &[Object], id: u32) -> Option<&Object>
    requires { IsGraph items.now }
    ensures { option_copied result ≡ object_at items.now id }
{
    match items.binary_search_by_key(&id, |object| object.id) {
        Ok(i) => Some(&items[i]),
        Err(_) => None,
    }
}

/// Whether two objects are the same.
fn are_equal(one: &Object, other: &Object) -> bool
    ensures { (result ≡ true) ↔ (one.now ≡ other.now) }
{
    one.id == other.id && one.payload == other.payload && one.slots.items() == other.slots.items()
}

/// Whether both graphs have the same object under the id, or both have none.
pub(crate) fn have_same(one: &[Object], other: &[Object], id: u32) -> bool
    requires one { IsGraph one.now }
    requires other { IsGraph other.now }
    ensures { (result ≡ true) ↔ HaveSame one.now other.now id }
{
    match find(one, id) {
        Some(here) => match find(other, id) {
            Some(there) => are_equal(here, there),
            None => false,
        },
        None => find(other, id).is_none(),
    }
}
