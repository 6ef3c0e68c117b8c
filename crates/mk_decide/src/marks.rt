//! The nodes that reach a node, by their bits in a row.
ghost use Rattle.std.specs.Prelude.{ℕ, ◌↔◌, ◌*◌, ◌^◌, ◌<◌, ◌≤◌, IfNone, IfSome, length};
ghost use Rattle.mk_jobs.specs.Jobs.{node_count};
ghost use Rattle.mk_jobs.specs.Shape.{IsWellFormed};
ghost use Rattle.mk_index.specs.Bits.{HasBit};
ghost use Rattle.mk_index.specs.Uses.{Reaches};
ghost use Rattle.mk_jobs.specs.Reaching.{uses_of};

use mk_jobs::jobs::Jobs;
use mk_jobs::plan::NODE_LIMIT;

/// How many bits a word has.
const WORD: u32 = 64;

/// How many words a row has, so that each node of a plan has a bit.
pub(crate) const WORDS: usize = (NODE_LIMIT + WORD as usize - 1) / WORD as usize;

/// The row that has the bits of the nodes that reach b. It stands on the stack.
pub(crate) fn row_of(jobs: &Jobs, b: u32) -> [u64; WORDS]
    requires shape { IsWellFormed jobs.now }
    requires node { b < node_count jobs.now }
    ensures { (a : ℕ) → HasBit result a ↔ Reaches (uses_of jobs.now) a b }
{
    let mut row = [0; WORDS];
    jobs.mark_reaching(b, &mut row);
    row
}

/// The least number from this one on whose bit a row has, if there is one.
pub(crate) fn next_bit(row: &[u64], from: u32) -> Option<u32>
    requires { 64 * length row.now < 2 ^ 31 }
    ensures some { IfSome result (λ n. (from ≤ n) × (n < 64 * length row.now) × HasBit row.now n) }
    ensures between { IfSome result (λ n. (k : ℕ) → from ≤ k → k < n → HasBit row.now k → ⊥) }
    ensures none { IfNone result ((k : ℕ) → from ≤ k → HasBit row.now k → ⊥) }
{
    let mut n = from;
    while ((n / WORD) as usize) < row.len() {
        let word = row[(n / WORD) as usize];
        if word == 0 {
            n = (n / WORD + 1) * WORD;
        } else if (word >> (n % WORD)) & 1 == 1 {
            return Some(n);
        } else {
            n += 1;
        }
    }
    None
}
