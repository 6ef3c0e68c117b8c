//! Whether the chains of a certificate are enough.
ghost use Rattle.std.specs.Prelude.{ℕ, ◌≡◌, ◌≢◌, ◌<◌, ◌≤◌, ◌*◌, ◌/◌, ◌↔◌, ◌^◌, IsTrue, length};
ghost use Rattle.mk_index.specs.Bits.{HasBit};
ghost use Rattle.mk_index.specs.Uses.{Reaches};
ghost use Rattle.mk_jobs.specs.Jobs.{node_count};
ghost use Rattle.mk_jobs.specs.Reaching.{uses_of};
ghost use Rattle.mk_cert.specs.Pairs.{IsPaired};

use crate::search::has_chain;
use mk_index::bits::has_bit;
use mk_jobs::jobs::Jobs;
use mk_jobs::plan::NODE_LIMIT;
use mk_proof::certificate::Certificate;

/// How many bits a word has.
const WORD: usize = 64;

/// How many words have a bit for each node.
const WORDS: usize = (NODE_LIMIT + WORD - 1) / WORD;

/// Whether a chain leads from the smaller to the greater of two numbers.
fn has_pair(certificate: &Certificate, a: u32, b: u32) -> bool
    ensures { IsTrue result ↔ IsPaired certificate.now a b }
{
    if a < b {
        has_chain(certificate, a, b)
    } else {
        has_chain(certificate, b, a)
    }
}

/// Whether b and each other number that has its bit in this word of a row are the ends of a chain.
fn is_word_paired(certificate: &Certificate, b: u32, row: &[u64], place: usize) -> bool
    requires place { place < length row.now }
    requires short { 64 * length row.now ≤ 2 ^ 32 }
    ensures { IsTrue result ↔ ((a : ℕ) → a / 64 ≡ place → a ≢ b → HasBit row.now a → IsPaired certificate.now a b) }
{
    if row[place] == 0 {
        return true;
    }
    for bit in 0..WORD {
        let a = (WORD * place + bit) as u32;
        if a != b && has_bit(row, a) && !has_pair(certificate, a, b) {
            return false;
        }
    }
    true
}

/// Whether b and each other number that has its bit in a row are the ends of a chain.
fn are_paired(certificate: &Certificate, b: u32, row: &[u64]) -> bool
    requires { 64 * length row.now ≤ 2 ^ 32 }
    ensures { IsTrue result ↔ ((a : ℕ) → a ≢ b → HasBit row.now a → IsPaired certificate.now a b) }
{
    for place in 0..row.len() {
        if !is_word_paired(certificate, b, row, place) {
            return false;
        }
    }
    true
}

/// Whether node b and each other node that reaches it are the ends of a chain. The number must be below the count of nodes.
fn has_chains_of(jobs: &Jobs, certificate: &Certificate, b: u32) -> bool
    requires { b < node_count jobs.now }
    ensures { IsTrue result ↔ ((a : ℕ) → a ≢ b → Reaches (uses_of jobs.now) a b → IsPaired certificate.now a b) }
{
    let _count = jobs.count();
    let mut row = [0u64; WORDS];
    jobs.mark_reaching(b, &mut row);
    are_paired(certificate, b, &row)
}

/// Whether any two nodes of which one reaches the other are the ends of a chain.
pub(crate) fn has_chains(jobs: &Jobs, certificate: &Certificate) -> bool
    ensures { IsTrue result
        ↔ ((a b : ℕ) → b < node_count jobs.now → a ≢ b → Reaches (uses_of jobs.now) a b → IsPaired certificate.now a b) }
{
    for b in 0..jobs.count() {
        if !has_chains_of(jobs, certificate, b) {
            return false;
        }
    }
    true
}
