//! Which registers hold which objects.
ghost use Rattle.std.specs.Prelude.{◌≡◌, ◌≢◌, ◌↔◌, ◌<◌, ◌⊎◌, ℕ, true, false, Some, None, IfSome, IfNone};
ghost use Rattle.object_store.specs.Handles.{held_at, only_root, IsCrowded};

use crate::REGISTERS;
use crate::reference::Held;
use std::marker::Model;

/// For each register of the open transaction, the object that it is known to hold. Register 0 holds the root.
#[derive(Drop)]
pub(crate) struct Table {
    rows: [Option<u32>; 8],
}

impl Model for Table {
    ghost use Rattle.std.specs.Prelude.{◌≡◌, List, Option, ℕ, length};

    ghost Value = { List (Option ℕ) };

    ghost view = { λ t. t.rows };

    ghost invariant = { λ t. length t.rows ≡ 8 };
}

impl Table {
    /// What a transaction holds that has just begun: the root.
    pub(crate) fn new() -> Table
        ensures { result ≡ only_root }
    {
        Table {
            rows: [Some(1), None, None, None, None, None, None, None],
        }
    }

    /// Whether the register of this reference is known to hold its object.
    pub(crate) fn holds(&self, held: Held) -> bool
        ensures holds { (result ≡ true) ↔ (held_at self.now held.register ≡ Some held.id) }
        ensures small { result ≡ true → held.register < 8 }
    {
        let rows = &self.rows;
        if held.register >= REGISTERS {
            return false;
        }
        match rows[held.register as usize] {
            Some(id) => id == held.id,
            None => false,
        }
    }

    /// Whether the register of this reference is known to hold its object, where there is a reference.
    pub(crate) fn holds_any(&self, held: Option<Held>) -> bool
        ensures holds { result ≡ true → IfSome held (λ h. held_at self.now h.register ≡ Some h.id) }
        ensures not { result ≡ false → IfSome held (λ h. held_at self.now h.register ≡ Some h.id) → ⊥ }
        ensures small { result ≡ true → IfSome held (λ h. h.register < 8) }
    {
        match held {
            Some(held) => self.holds(held),
            None => true,
        }
    }

    /// The first register that is known to hold nothing.
    pub(crate) fn free(&self) -> Option<u8>
        ensures some { IfSome result (λ r. (r < 8) × (held_at self.now r ≡ None)) }
        ensures none { result ≡ None → IsCrowded self.now }
    {
        for register in 0..REGISTERS {
            if self.rows[register as usize].is_none() {
                return Some(register);
            }
        }
        None
    }

    /// The register that is known to hold the object.
    fn find(&self, id: u32) -> Option<u8>
        ensures some { IfSome result (λ r. held_at self.now r ≡ Some id) }
        ensures none { result ≡ None → (r : ℕ) → r < 8 → held_at self.now r ≢ Some id }
    {
        for register in 0..REGISTERS {
            if self.rows[register as usize] == Some(id) {
                return Some(register);
            }
        }
        None
    }

    /// Notes that the register holds this object, or none.
    pub(crate) fn put(&mut self, register: u8, row: Option<u32>)
        requires { register < 8 }
        ensures here { held_at self.new register ≡ row }
        ensures others { (r : ℕ) → r ≢ register → held_at self.new r ≡ held_at self.old r }
    {
        self.rows[register as usize] = row;
    }

    /// Notes that a register, which is free, was loaded with the object, unless the object is held already: the reference to it.
    pub(crate) fn keep(&mut self, register: u8, id: u32) -> Held
        requires small { register < 8 }
        requires free { held_at self.old register ≡ None }
        ensures id { result.id ≡ id }
        ensures holds { held_at self.new result.register ≡ Some id }
        ensures still { (r i : ℕ) → held_at self.old r ≡ Some i → held_at self.new r ≡ Some i }
        ensures only { (r i : ℕ) → held_at self.new r ≡ Some i → (held_at self.old r ≡ Some i) ⊎ ((r ≡ register) × (i ≡ id)) }

        // One that is held already is held once.
        ensures once { (r : ℕ) → r < 8 → held_at self.old r ≡ Some id → self.new ≡ self.old }
    {
        match self.find(id) {
            Some(holder) => Held {
                id,
                register: holder,
            },
            None => {
                self.put(register, Some(id));
                Held { id, register }
            }
        }
    }

    /// Forgets what the register holds. The root stays.
    pub(crate) fn forget(&mut self, held: Held)
        ensures gone { held.register ≢ 0 → held_at self.old held.register ≡ Some held.id → held_at self.new held.register ≡ None }
        ensures others { (r : ℕ) → r ≢ held.register → held_at self.new r ≡ held_at self.old r }
        ensures only { (r i : ℕ) → held_at self.new r ≡ Some i → held_at self.old r ≡ Some i }
        ensures rooted { held_at self.new 0 ≡ held_at self.old 0 }
        ensures small { held_at self.old held.register ≡ Some held.id → held.register < 8 }
    {
        if held.register == 0 {
            return;
        }
        if !self.holds(held) {
            return;
        }
        self.put(held.register, None);
    }
}
