//! A row of bits for each node: of which nodes it hears.
ghost use Rattle.std.specs.Prelude.{ℕ, ◌≡◌, ◌<◌, ◌≤◌, ◌+◌, ◌*◌, ◌↔◌, ◌⊎◌, ◌&&◌, All, IfOk, IsTrue, false, length, true};
ghost use Rattle.mk_index.specs.Bits.{HasBit};
ghost use Rattle.mk_jobs.specs.Jobs.{IsValid, is_live, node_count, prerequisites_of};
ghost use Rattle.mk_decide.specs.Bits.{row_at};
ghost use Rattle.mk_missing.specs.Watching as watching;
ghost use Rattle.mk_missing.specs.Watching.{Carries};
ghost use Rattle.mk_missing.specs.Hearing.{AreHeard, Hears, IsNews};

use crate::always::makes_own;
use mk_decide::words::merge;
use mk_index::bits::{has_bit, set_bit};
use mk_jobs::jobs::Jobs;
use std::alloc::{AllocError, Global};
use std::marker::Model;

/// How many bits a word has.
const WORD: usize = 64;

/// Of which nodes each node hears: its prerequisites, and those of the nodes that carry to it.
#[derive(Drop)]
pub(crate) struct Hearing<'a> {
    jobs: &'a Jobs,
    width: usize,
    words: Vec<u64>,
}

impl<'a> Model for Hearing<'a> {
    ghost use Rattle.mk_jobs.specs.Jobs as spec;
    ghost use Rattle.mk_missing.specs.Hearing.{IsFilled};

    ghost Value = { spec.Jobs };

    ghost view = { λ a. a.jobs.now };

    ghost invariant = { λ a. IsFilled a.jobs.now a.width a.words.items };
}

impl<'a> Hearing<'a> {
    /// The rows of these jobs, of one word for each 64 nodes. The only error is out of memory.
    pub(crate) fn new(alloc: Global, jobs: &'a Jobs) -> Result<Hearing<'a>, AllocError>
        ensures { IfOk result (λ hearing. hearing ≡ jobs.now) }
    {
        let count = jobs.count() as usize;
        let width = count.div_ceil(WORD);
        let mut words = vec![in alloc; 0; count * width]?;
        fill_rows(jobs, width, &mut words);
        Ok(Hearing { jobs, width, words })
    }

    /// Whether n hears of k. Both numbers must be below the count of nodes.
    pub(crate) fn hears(&self, k: u32, n: u32) -> bool
        requires first { k < node_count self.now }
        requires second { n < node_count self.now }
        ensures { IsTrue result ↔ Hears self.now k n }
    {
        let at = n as usize * self.width;
        has_bit(&self.words[at..at + self.width], k)
    }

    /// Whether m carries to n. Both numbers must be below the count of nodes.
    pub(crate) fn carries(&self, m: u32, n: u32) -> bool
        requires first { m < node_count self.now }
        requires second { n < node_count self.now }
        ensures { IsTrue result ↔ Carries self.now m n }
    {
        may_carry(self.jobs, m, n) && self.hears(m, n)
    }
}

/// Whether n is live, and m makes its own file.
fn may_carry(jobs: &Jobs, m: u32, n: u32) -> bool
    requires first { m < node_count jobs.now }
    requires second { n < node_count jobs.now }
    ensures { result ≡ is_live jobs.now n && watching.makes_own jobs.now m }
{
    jobs.is_live(n) && makes_own(jobs, m)
}

/// Fills the rows in rising number.
fn fill_rows(jobs: &Jobs, width: usize, words: &mut [u64])
    requires wide { node_count jobs.now ≤ 64 * width }
    requires long { length words.old ≡ node_count jobs.now * width }
    requires clear { All (λ word. word ≡ 0) words.old }
    ensures { AreHeard jobs.now width words.new (node_count jobs.now) }
{
    for n in 0..jobs.count() {
        let (done, rest) = words.split_at_mut(n as usize * width);
        add_news(
            jobs,
            &mut rest[..width],
            done,
            jobs.is_live(n),
            jobs.prerequisites(n),
        );
    }
}

/// Adds to a row the bits of some nodes; and where news are carried on, those of the rows of the ones that make their files.
fn add_news(jobs: &Jobs, row: &mut [u64], done: &[u64], carries: bool, nodes: &[u32])
    requires nodes { All (λ p. p < node_count jobs.now) nodes.now }
    requires wide { node_count jobs.now ≤ 64 * length row.old }
    requires there { All (λ p. p * length row.old + length row.old ≤ length done.now) nodes.now }
    ensures { (k : ℕ) → HasBit row.new k ↔ (HasBit row.old k ⊎ IsNews jobs.now (length row.old) done.now carries nodes.now k) }
{
    for &p in nodes {
        add_one(row, done, p, carries_on(jobs, carries, p));
    }
}

/// Whether the news of a node are carried on: where they are, and it makes its own file.
fn carries_on(jobs: &Jobs, carries: bool, p: u32) -> bool
    requires { p < node_count jobs.now }
    ensures { result ≡ carries && watching.makes_own jobs.now p }
{
    carries && makes_own(jobs, p)
}

/// Adds to a row the bit of a node; and, where its news are carried on, those of its row.
fn add_one(row: &mut [u64], done: &[u64], p: u32, on: bool)
    requires wide { p < 64 * length row.old }
    requires there { p * length row.old + length row.old ≤ length done.now }
    ensures on { on ≡ true → (k : ℕ) → HasBit row.new k ↔ (HasBit row.old k ⊎ ((k ≡ p) ⊎ HasBit (row_at (length row.old) done.now p) k)) }
    ensures off { on ≡ false → (k : ℕ) → HasBit row.new k ↔ (HasBit row.old k ⊎ (k ≡ p)) }
{
    set_bit(row, p);
    if on {
        let width = row.len();
        let at = p as usize * width;
        merge(row, &done[at..at + width]);
    }
}
