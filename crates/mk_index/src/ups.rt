//! The way up from a number: which one stands next above it.
ghost use Rattle.std.specs.Prelude.{ℕ, ◌≡◌, ◌<◌, ◌≤◌, ◌⊎◌, IfNone, IfSome, None};
ghost use Rattle.mk_index.specs.Ups.{AreRanked, IsUp, IsUpOf, above, number_count, rank_at};

use std::marker::Model;

/// For each number the one next above it, and a rank, which falls on the way up.
#[derive(Debug, Drop)]
pub struct Ups {
    next: Vec<u32>,
    ranks: Vec<u32>,
}

impl Model for Ups {
    ghost use Rattle.mk_index.specs.Ups as spec;
    ghost use Rattle.mk_index.specs.Ups.{AreRanked};

    ghost Value = { spec.Ups };

    ghost view = { λ a. record { next = a.next.items; ranks = a.ranks.items } };

    ghost invariant = { λ a. AreRanked (record { next = a.next.items; ranks = a.ranks.items }) };
}

impl Ups {
    /// The ways up with these next numbers and ranks.
    pub fn new(next: Vec<u32>, ranks: Vec<u32>) -> Ups
        requires { AreRanked (record { next = next.items; ranks = ranks.items }) }
        ensures { result ≡ record { next = next.items; ranks = ranks.items } }
    {
        Ups { next, ranks }
    }

    /// The number next above this one, if there is one.
    pub fn above(&self, t: u32) -> Option<u32>
        requires { t < number_count self.now }
        ensures some { IfSome result (λ u. u ≡ above self.now t) }
        ensures within { IfSome result (λ u. u < number_count self.now) }
        ensures falls { IfSome result (λ u. rank_at self.now u < rank_at self.now t) }
        ensures none { IfNone result (above self.now t ≡ t) }
    {
        let u = self.next[t as usize];
        if u == t { None } else { Some(u) }
    }

    /// The rank of a number, which is less than that of each number below it.
    pub fn rank(&self, t: u32) -> u32
        requires { t < number_count self.now }
        ensures { result ≡ rank_at self.now t }
    {
        self.ranks[t as usize]
    }

    /// The first number, from one on upwards, whose rank is not above this limit, or the topmost one where all are above it.
    /// None just where there is none to go up from.
    pub fn rise(&self, from: Option<u32>, limit: u32) -> Option<u32>
        requires { IfSome from (λ q. q < number_count self.now) }
        ensures up { IfSome result (λ t. IsUpOf self.now t from) }
        ensures within { IfSome result (λ t. t < number_count self.now) }
        ensures stops { IfSome result (λ t. (rank_at self.now t ≤ limit) ⊎ (above self.now t ≡ t)) }
        ensures passed { IfSome result (λ t. (u : ℕ) → IsUpOf self.now u from → IsUp self.now u t ⊎ (limit < rank_at self.now u)) }
        ensures none { IfNone result (from ≡ None) }
    {
        let mut t = from?;
        while self.rank(t) > limit {
            match self.above(t) {
                Some(u) => t = u,
                None => break,
            }
        }
        Some(t)
    }
}
