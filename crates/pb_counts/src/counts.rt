//! The table of a store's files, or of its objects.
ghost use Rattle.std.specs.Prelude.{◌≡◌, ◌↔◌, ℕ, [], true, false, OnOk, OnErr, Some, None, IsTrue, IsFalse, if◌then◌else◌, nat_eq};
ghost use Rattle.pb_counts.specs.declared.user.User.{User as OneUser};
ghost use Rattle.pb_counts.specs.Counts.{uses, is_used, is_known, IsCounts, IsObsolete, AllUsed};
ghost use Rattle.pb_counts.specs.Pairs.{is_pair};

use super::{User, known, pairs};
use std::alloc::{AllocError, Global};
use std::marker::Model;

/// The backings that are known, and the users of each: docs/MODEL.md, "Counts".
///
/// A backing is known from its first user until it is forgotten. Contracts see both lists: the pairs of a user and a backing, ascending
/// by backing and then by user, and the known backings, ascending, each once. What is used is known.
#[derive(Debug, Drop)]
pub struct Counts {
    pairs: Vec<(User, u64)>,
    known: Vec<u64>,
}

impl Model for Counts {
    ghost use Rattle.pb_counts.specs.Counts.{CountsView, IsCounts};

    ghost Value = { CountsView };

    ghost view = { λ c. record { pairs = c.pairs.items; known = c.known.items } };

    ghost invariant = { λ c. IsCounts (record { pairs = c.pairs.items; known = c.known.items }) };
}

impl Counts {
    /// Nothing used, nothing known. It takes no memory.
    pub fn new(alloc: Global) -> Counts
        ensures { result ≡ record { pairs = []; known = [] } }
    {
        Counts {
            pairs: Vec::new(alloc),
            known: Vec::new(alloc),
        }
    }

    /// Has the user use the backing, which is known from here on. A pair that stands changes nothing. Without memory all is as before.
    pub fn retain(&mut self, user: User, backing: u64) -> Result<(), AllocError>
        ensures uses { OnOk result ((u : OneUser) (b : ℕ) → uses self.new u b ≡ (if is_pair (u, b) (user, backing) then true else uses self.old u b)) }
        ensures known { OnOk result ((b : ℕ) → is_known self.new b ≡ (if nat_eq backing b then true else is_known self.old b)) }
        ensures stands { IsTrue (uses self.old user backing) → self.new ≡ self.old }
        ensures err { OnErr result (self.new ≡ self.old) }
    {
        self.pairs.reserve(1)?;
        self.known.reserve(1)?;
        pairs::add(&mut self.pairs, (user, backing));
        known::add(&mut self.known, backing);
        Ok(())
    }

    /// Ends the user's use of the backing. It takes no memory.
    pub fn release(&mut self, user: User, backing: u64)
        requires { IsTrue (uses self.old user backing) }
        ensures uses { (u : OneUser) (b : ℕ) → uses self.new u b ≡ (if is_pair (u, b) (user, backing) then false else uses self.old u b) }
        ensures known { self.new.known ≡ self.old.known }
    {
        pairs::remove(&mut self.pairs, (user, backing));
    }

    /// The least known backing that nobody uses; None exactly where each is used.
    pub fn obsolete(&self) -> Option<u64>
        ensures some { (backing : ℕ) → (result ≡ Some backing) ↔ IsObsolete self.now backing }
        ensures none { (result ≡ None) ↔ AllUsed self.now }
    {
        let mut pairs = self.pairs.as_slice();
        for backing in &self.known {
            pairs = pairs::from_backing(pairs, *backing);
            if !pairs::begin_with(pairs, *backing) {
                return Some(*backing);
            }
        }
        None
    }

    /// Ends that the backing is known. It takes no memory.
    pub fn forget(&mut self, backing: u64)
        requires { IsFalse (is_used self.old backing) }
        ensures known { (b : ℕ) → is_known self.new b ≡ (if nat_eq backing b then false else is_known self.old b) }
        ensures pairs { self.new.pairs ≡ self.old.pairs }
    {
        known::remove(&mut self.known, backing);
    }

    /// Does nothing: its contract is what holds of every table.
    pub fn in_form(&self)
        ensures { IsCounts self.now }
    {
        let _known = &self.known;
    }
}
