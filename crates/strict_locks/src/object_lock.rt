//! The lock of one object.
ghost use Rattle.std.specs.Prelude.{◌≡◌, ℕ, ◌||◌, ◌&&◌, ◌==◌, not, [], Some, None};
ghost use Rattle.strict_locks.specs.Locks.{is_owner, is_sharer, is_holder, only_shares, Holds, IsExclusive, StandsInWayOfShare, StandsInWayOfOwn, Nobody, IsLeastOrNone};
ghost use Rattle.strict_locks.specs.Standing.{IsStanding};

use crate::client_set::ClientSet;
use crate::standing::Standing;
use std::marker::Model;

/// Who holds an object. Where it is owned, nobody but its owner holds it.
#[derive(Debug, Drop)]
pub(crate) struct ObjectLock {
    owner: Option<u8>,
    sharers: ClientSet,
}

impl Model for ObjectLock {
    ghost use Rattle.strict_locks.specs.Locks.{Holders, IsExclusive};
    ghost use Rattle.strict_locks.specs.ClientSet.{members};

    ghost Value = { Holders };

    ghost view = { λ a. record { owner = a.owner; sharers = members a.sharers } };

    ghost invariant = { λ a. IsExclusive (record { owner = a.owner; sharers = members a.sharers }) };
}

#[tactic(auto, using(crate::proofs::ClientSetLaws::has_members))]
impl ObjectLock {
    /// The lock of an object that this client alone shares.
    pub(crate) fn shared_by(pass: u8) -> ObjectLock
        ensures owner { result.owner ≡ None }
        ensures sharers { (p : ℕ) → is_sharer result p ≡ (p == pass) }
    {
        let mut sharers = ClientSet::new();
        sharers.insert(pass);
        ObjectLock {
            owner: None,
            sharers,
        }
    }

    /// The lock of an object that this client owns.
    pub(crate) fn owned_by(pass: u8) -> ObjectLock
        ensures { result ≡ record { owner = Some pass; sharers = [] } }
    {
        ObjectLock {
            owner: Some(pass),
            sharers: ClientSet::new(),
        }
    }

    /// The client that keeps this one from sharing the object.
    pub(crate) fn other_owner(&self, pass: u8) -> Option<u8>
        ensures { IsLeastOrNone (StandsInWayOfShare self.now pass) result }
    {
        match self.owner {
            Some(owner) if owner != pass => Some(owner),
            _ => None,
        }
    }

    /// The least client that keeps this one from owning the object.
    pub(crate) fn other_holder(&self, pass: u8) -> Option<u8>
        ensures { IsLeastOrNone (StandsInWayOfOwn self.now pass) result }
    {
        match self.owner {
            Some(owner) if owner != pass => Some(owner),
            Some(_) => None,
            None => self.sharers.first_but(pass),
        }
    }

    /// How the client stands to sharing the object.
    pub(crate) fn standing_to_share(&self, pass: u8) -> Standing
        ensures { IsStanding (StandsInWayOfShare self.now pass) (is_sharer self.now pass) (is_holder self.now pass) result }
    {
        if let Some(owner) = self.other_owner(pass) {
            return Standing::Blocked(owner);
        }
        if self.sharers.contains(pass) {
            Standing::Granted
        } else if self.owner == Some(pass) {
            Standing::Held
        } else {
            Standing::Free
        }
    }

    /// How the client stands to owning the object.
    pub(crate) fn standing_to_own(&self, pass: u8) -> Standing
        ensures { IsStanding (StandsInWayOfOwn self.now pass) (is_owner self.now pass) (is_holder self.now pass) result }
    {
        if let Some(holder) = self.other_holder(pass) {
            return Standing::Blocked(holder);
        }
        if self.owner == Some(pass) {
            Standing::Granted
        } else if self.sharers.contains(pass) {
            Standing::Held
        } else {
            Standing::Free
        }
    }

    /// Whether the client shares the object and doesn't own it.
    pub(crate) fn only_shares(&self, pass: u8) -> bool
        ensures { result ≡ only_shares self.now pass }
    {
        self.sharers.contains(pass) && self.owner != Some(pass)
    }

    /// The least client that holds the object.
    pub(crate) fn least_holder(&self) -> Option<u8>
        ensures least { IsLeastOrNone (Holds self.now) result }
        ensures exclusive { IsExclusive self.now }
    {
        match self.owner {
            Some(owner) => Some(owner),
            None => self.sharers.first(),
        }
    }

    /// Adds the client to those that share the object.
    pub(crate) fn share(&mut self, pass: u8)
        requires { Nobody (StandsInWayOfShare self.old pass) }
        ensures owner { self.new.owner ≡ self.old.owner }
        ensures sharers { (p : ℕ) → is_sharer self.new p ≡ (p == pass || is_sharer self.old p) }
    {
        self.sharers.insert(pass);
    }

    /// Makes the client the owner of the object.
    pub(crate) fn own(&mut self, pass: u8)
        requires { Nobody (StandsInWayOfOwn self.old pass) }
        ensures { self.new ≡ record self.old { owner = Some pass } }
    {
        self.owner = Some(pass);
    }

    /// Takes the client from the holders of the object.
    pub(crate) fn give_back(&mut self, pass: u8)
        ensures owner { (p : ℕ) → is_owner self.new p ≡ (not (p == pass) && is_owner self.old p) }
        ensures sharers { (p : ℕ) → is_sharer self.new p ≡ (not (p == pass) && is_sharer self.old p) }
    {
        if self.owner == Some(pass) {
            self.owner = None;
        }
        self.sharers.remove(pass);
    }
}
