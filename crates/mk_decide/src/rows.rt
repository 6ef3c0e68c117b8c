//! A row of bits for each node: which nodes of a block are before it.
ghost use Rattle.std.specs.Prelude.{ℕ, ◌≡◌, ◌<◌, ◌≤◌, ◌+◌, ◌-◌, ◌*◌, ◌↔◌, ◌⊎◌, All, IfOk, IsTrue, length};
ghost use Rattle.mk_jobs.specs.Jobs.{IsValid, node_count};
ghost use Rattle.mk_index.specs.Bits.{HasBit};
ghost use Rattle.mk_decide.specs.Bits.{AreRows, Gathers, block_nodes, row_at, row_words};

use crate::before::Before;
use crate::words::merge;
use mk_index::bits::{has_bit, set_bit};
use mk_jobs::jobs::Jobs;
use std::alloc::{AllocError, Global};
use std::marker::Model;

/// How many words a row has.
const ROW_WORDS: usize = 64;

/// How many nodes a block speaks of: a bit of each row for each.
const BLOCK_NODES: u32 = 4096;

/// For each node a row of bits: which of the nodes of one block, those from its first on, are before it. A question about a node
/// of the block takes one look at a word. A question about another, that no direct edge answers, fills the rows anew for a block
/// that begins with that node. So it is quick where the first nodes of many questions in a row lie near each other.
#[derive(Drop)]
pub struct Rows<'a> {
    jobs: &'a Jobs,
    first: u32,
    words: Vec<u64>,
}

impl<'a> Model for Rows<'a> {
    ghost use Rattle.mk_jobs.specs.Jobs as spec;
    ghost use Rattle.mk_decide.specs.Bits.{IsFilled};

    ghost Value = { spec.Jobs };

    ghost view = { λ rows. rows.jobs.now };

    ghost invariant = { λ rows. IsFilled rows.jobs.now rows.first rows.words.items };
}

impl<'a> Rows<'a> {
    /// The rows of these jobs, of 512 bytes for each node. The only error is out of memory.
    pub fn new(alloc: Global, jobs: &'a Jobs) -> Result<Rows<'a>, AllocError>
        ensures { IfOk result (λ rows. rows ≡ jobs.now) }
    {
        let mut words = vec![in alloc; 0; jobs.count() as usize * ROW_WORDS]?;
        fill_rows(jobs, 0, &mut words);
        Ok(Rows {
            jobs,
            first: 0,
            words,
        })
    }
}

impl Before for Rows<'_> {
    ghost jobs = { λ rows. rows };

    fn before(&mut self, a: u32, b: u32) -> bool {
        if is_within(self.first, a) {
            return has_bit(row_of(&self.words, b), a - self.first);
        }
        if self.jobs.is_prerequisite(a, b) {
            return true;
        }
        fill_rows(self.jobs, a, &mut self.words);
        self.first = a;
        has_bit(row_of(&self.words, b), 0)
    }
}

/// Whether a node lies in the block that begins with this node.
fn is_within(first: u32, node: u32) -> bool
    ensures { IsTrue result ↔ ((first ≤ node) × (node < first + block_nodes)) }
{
    first <= node && node - first < BLOCK_NODES
}

/// The row of a node.
fn row_of(words: &[u64], node: u32) -> &[u64]
    requires { node * row_words + row_words ≤ length words.now }
    ensures row { result.now ≡ row_at row_words words.now node }
    ensures wide { length result.now ≡ row_words }
{
    let at = node as usize * ROW_WORDS;
    &words[at..at + ROW_WORDS]
}

/// Fills the rows in rising number, for the block that begins with this node.
fn fill_rows(jobs: &Jobs, first: u32, words: &mut [u64])
    requires { length words.old ≡ node_count jobs.now * row_words }
    ensures { AreRows jobs.now first words.new (node_count jobs.now) }
{
    for b in 0..jobs.count() {
        let (done, rest) = words.split_at_mut(b as usize * ROW_WORDS);
        fill_row(&mut rest[..ROW_WORDS], done, first, jobs.prerequisites(b));
    }
}

/// Fills one row with the bits of these nodes and of their rows. Nothing of the block is before a node in front of it.
fn fill_row(row: &mut [u64], done: &[u64], first: u32, nodes: &[u32])
    requires wide { length row.old ≡ row_words }
    requires there { All (λ p. p * row_words + row_words ≤ length done.now) nodes.now }
    ensures { Gathers first done.now nodes.now row.new }
{
    row.fill(0);
    for &p in nodes {
        if p >= first {
            add_node(row, row_of(done, p), p - first);
        }
    }
}

/// Adds to a row the bits of another row, and the bit of this number if the block reaches so far.
fn add_node(row: &mut [u64], other: &[u64], number: u32)
    requires wide { length row.old ≡ row_words }
    requires other { length other.now ≡ row_words }
    ensures { (n : ℕ) → n < block_nodes → HasBit row.new n ↔ ((HasBit row.old n ⊎ HasBit other.now n) ⊎ (n ≡ number)) }
{
    merge(row, other);
    if number < BLOCK_NODES {
        set_bit(row, number);
    }
}
