//! Certificates: the chains that order what clashes.
ghost use Rattle.std.specs.Prelude.{◌≡◌, ◌↔◌, ◌<◌, ◌++◌, ◌∷◌, [], length, slice_index_or, IsTrue, OnErr, OnOk};
ghost use Rattle.std.specs.List.Sorted.{IsStrictlySortedBy};
ghost use Rattle.std.specs.Ordering.{nat_cmp};
ghost use Rattle.mk_proof.specs.Shapes.{IsShapedChain, ends_of};

use crate::table::Table;
use std::alloc::{AllocError, Global};
use std::marker::Model;

/// The most chains of a certificate.
pub const MOST_CHAINS: usize = 1_000_000;

/// The greatest number of a node: a plan has at most 20,000 nodes (`NODE_LIMIT` of `mk_jobs`), whose numbers begin at 0.
pub const GREATEST_NODE: u32 = 19_999;

/// Chains of node numbers (profile): at most a million, each of two or more numbers up to 19,999 of which each is below
/// the next. The pairs of their first and last numbers rise.
#[derive(Debug, Drop)]
pub struct Certificate {
    chains: Table,
}

impl Model for Certificate {
    ghost use Rattle.std.specs.Prelude.{List, ℕ};
    ghost use Rattle.mk_proof.specs.Shapes.{AreShapedChains};

    ghost Value = { List (List ℕ) };

    ghost view = { λ a. a.chains };

    ghost invariant = { λ a. AreShapedChains a.chains };
}

impl Certificate {
    ghost use Rattle.std.specs.Prelude.{map};
    ghost use Rattle.std.specs.List.Sorted.{IsStrictlySortedBy};
    ghost use Rattle.mk_proof.specs.Shapes.{AreShapedChains, ends_of, pair_cmp};

    /// The certificate of no chains.
    pub fn new(alloc: Global) -> Certificate
        ensures { result ≡ [] }
    {
        Certificate {
            chains: Table::new(alloc),
        }
    }

    /// The number of chains.
    pub fn count(&self) -> usize
        ensures value { result ≡ length self.now }
        ensures shaped { AreShapedChains self.now }
    {
        self.chains.count()
    }

    /// The chain with this number, from 0.
    pub fn chain(&self, number: usize) -> &[u32]
        requires { number < length self.now }
        ensures { result.now ≡ slice_index_or self.now number result.now }
    {
        self.chains.row(number)
    }

    /// Whether the chain may stand behind the others.
    pub fn takes(&self, chain: &[u32]) -> bool
        ensures { IsTrue result ↔ AreShapedChains (self.now ++ chain.now ∷ []) }
    {
        self.chains.count() < MOST_CHAINS && is_shaped(chain) && self.is_below(chain)
    }

    /// Whether the ends of the last chain come before those of this one.
    fn is_below(&self, chain: &[u32]) -> bool
        requires { 0 < length chain.now }
        ensures { IsTrue result ↔ IsStrictlySortedBy pair_cmp (map ends_of (self.now ++ chain.now ∷ [])) }
    {
        let count = self.count();
        count == 0 || ends(self.chain(count - 1)) < ends(chain)
    }

    /// Puts a chain at the end. The only error is out of memory, and the certificate is then as it was.
    pub fn push(&mut self, chain: &[u32]) -> Result<(), AllocError>
        requires { AreShapedChains (self.old ++ chain.now ∷ []) }
        ensures pushed { OnOk result (self.new ≡ self.old ++ chain.now ∷ []) }
        ensures kept { OnErr result (self.new ≡ self.old) }
    {
        self.chains.push(chain)
    }
}

/// The first and the last number.
fn ends(chain: &[u32]) -> (u32, u32)
    requires { 0 < length chain.now }
    ensures { result ≡ ends_of chain.now }
{
    (chain[0], chain[chain.len() - 1])
}

/// Whether each number is below the next.
fn is_rising(numbers: &[u32]) -> bool
    ensures { IsTrue result ↔ IsStrictlySortedBy nat_cmp numbers.now }
{
    for place in 1..numbers.len() {
        if numbers[place] <= numbers[place - 1] {
            return false;
        }
    }
    true
}

/// Whether these are the numbers of a chain.
fn is_shaped(chain: &[u32]) -> bool
    ensures { IsTrue result ↔ IsShapedChain chain.now }
{
    chain.len() >= 2 && chain[chain.len() - 1] <= GREATEST_NODE && is_rising(chain)
}
