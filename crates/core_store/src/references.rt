//! The references that transactions made, laid or removed, or had in registers when they gave a shared lock back.
ghost use Rattle.std.specs.Prelude.{◌≡◌, ◌≢◌, ℕ, ◌≤◌, ◌<◌, ◌+◌, ◌==◌, List, ◌++◌, [], ◌∷◌, true, if◌then◌else◌, option_to_list};
ghost use Rattle.std.specs.List.{list_any};
ghost use Rattle.ref_tables.specs.Queue.{has};
ghost use Rattle.ref_tables.specs.Refs.{entries_of, room_of};
ghost use Rattle.core_store.specs.References.{targets_of, holds};
ghost use Rattle.store_model.specs.Steps.{held_ids};
ghost use Rattle.core_store.specs.Queued.{each_once};
ghost use Rattle.core_store.specs.Logged.{if_any};

use cell_page::ROOT;
use plain_model::Memory;
use red_walk::IdList;
use ref_tables::{Kind, TempRef, TempRefs};

/// Adds an entry of the client, for which there is room.
#[inline(always)]
fn add(references: &mut TempRefs, pass: u8, target: u32, kind: Kind)
    requires { 0 < room_of references.old pass }
    ensures added { (p : ℕ) → targets_of (entries_of references.new p) ≡ (if p == pass then targets_of (entries_of references.old p) ++ target ∷ [] else targets_of (entries_of references.old p)) }
    ensures room { room_of references.old pass ≤ room_of references.new pass + 1 }
{
    let _ = references.add(pass, target, kind);
}

/// Notes a reference of the client, for which there is room. Null is none.
#[inline(always)]
pub(crate) fn note(references: &mut TempRefs, pass: u8, target: u32, kind: Kind)
    requires { 0 < room_of references.old pass }
    ensures noted { (p : ℕ) → targets_of (entries_of references.new p) ≡ (if p == pass then targets_of (entries_of references.old p) ++ if_any target else targets_of (entries_of references.old p)) }
    ensures room { room_of references.old pass ≤ room_of references.new pass + 1 }
{
    if target != 0 {
        add(references, pass, target, kind);
    }
}

/// Whether one of the registers holds the object.
fn is_held(registers: &[Option<u32>], id: u32) -> bool
    ensures { result ≡ list_any (holds id) registers.now }
{
    registers.iter().any(
        |register| -> bool
            ensures { result ≡ holds id register.now }
        { *register == Some(id) },
    )
}

/// The object that the register holds, where it isn't the root and no earlier register holds it.
fn newly_held(earlier: &[Option<u32>], register: Option<u32>) -> Option<u32>
    ensures { held_ids (earlier.now ++ register ∷ []) ≡ held_ids earlier.now ++ option_to_list result }
{
    match register {
        None => None,
        Some(id) => {
            if id == ROOT {
                return None;
            }
            if is_held(earlier, id) {
                return None;
            }
            Some(id)
        }
    }
}

/// Notes what the register of the client holds, where it isn't the root and no earlier register holds it. There is room for an
/// entry.
fn note_register(
    references: &mut TempRefs,
    pass: u8,
    earlier: &[Option<u32>],
    register: Option<u32>,
)
    requires { 0 < room_of references.old pass }
    ensures noted { (named : List ℕ) → targets_of (entries_of references.old pass) ≡ named ++ held_ids earlier.now → targets_of (entries_of references.new pass) ≡ named ++ held_ids (earlier.now ++ register ∷ []) }
    ensures others { (p : ℕ) → p ≢ pass → targets_of (entries_of references.new p) ≡ targets_of (entries_of references.old p) }
    ensures room { room_of references.old pass ≤ room_of references.new pass + 1 }
{
    match newly_held(earlier, register) {
        Some(id) => add(references, pass, id, Kind::Held),
        None => {}
    }
}

/// Notes what the registers of the client hold, but for the root, each object once, in the order of the registers. There is room for
/// an entry for each register.
pub(crate) fn note_held(references: &mut TempRefs, pass: u8, registers: [Option<u32>; 8])
    requires { 8 ≤ room_of references.old pass }
    ensures { (p : ℕ) → targets_of (entries_of references.new p) ≡ (if p == pass then targets_of (entries_of references.old p) ++ held_ids registers else targets_of (entries_of references.old p)) }
{
    for (r, register) in registers.iter().enumerate() {
        note_register(references, pass, &registers[..r], *register);
    }
}

/// Lets the list have the targets of these entries, each once, in the order in which they come first.
pub(crate) fn collect_targets(targets: &mut IdList, entries: &[TempRef])
    requires { (id : ℕ) → has (targets_of entries.now) id ≡ true → (1 ≤ id) × (id ≤ targets.old.limit) }
    ensures { targets.new ≡ record targets.old { ids = each_once (targets_of entries.now) } }
{
    targets.clear();
    for entry in entries {
        if !targets.has(entry.target) {
            targets.push(entry.target);
        }
    }
}
