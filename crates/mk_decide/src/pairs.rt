//! All pairs of nodes that clash.
ghost use Rattle.std.specs.Prelude.{ℕ, ◌≡◌, ◌≢◌, ◌<◌, ◌≤◌, ◌↔◌, Err, IfErr, IfOk, OnOk, length};
ghost use Rattle.std.specs.List.{Contains};
ghost use Rattle.mk_name.specs.Gives.{HaltsAmong};
ghost use Rattle.mk_jobs.specs.Jobs.{node_count};
ghost use Rattle.mk_jobs.specs.Shape.{IsWellFormed};
ghost use Rattle.mk_index.specs.Uses.{Reaches};
ghost use Rattle.mk_jobs.specs.Reaching.{uses_of};
ghost use Rattle.mk_decide.specs.Pairs.{ArePairs, HasManyPairs, Holds, OnlyClashing, PairsRise, pair_limit, too_many};

use crate::marks::{next_bit, row_of};
use mk_jobs::jobs::Jobs;
use mk_name::fault::{Fault, Halt, Kind, Source};
use mk_proof::certificate::MOST_CHAINS;
use std::alloc::{AllocError, Global};

/// The most pairs of nodes that may clash (profile): as many as a certificate has chains.
pub const PAIR_LIMIT: usize = MOST_CHAINS;

/// How many pairs are gathered before those that stand there twice are dropped.
const ROOM: usize = 2 * PAIR_LIMIT;

/// All pairs of nodes that clash, each once and with the smaller number first, rising by first and then second number. Where
/// more than `PAIR_LIMIT` pairs clash the fault is `TooManyPairs` in the jobs, at place 0 (profile).
pub fn clashing_pairs(alloc: Global, jobs: &Jobs) -> Result<Vec<(u32, u32)>, Halt>
    ensures pairs { IfOk result (λ pairs. ArePairs jobs.now pairs.items) }
    ensures few { IfOk result (λ pairs. length pairs.items ≤ pair_limit) }
    ensures many { IfErr result (λ halt.
        HaltsAmong {Y = ℕ} halt (λ answer. (answer ≡ Err too_many) × HasManyPairs jobs.now)) }
{
    let count = jobs.count();
    let mut pairs = Vec::new(alloc);
    for b in 0..count {
        add_pairs(jobs, &mut pairs, b)?;
        if pairs.len() > ROOM {
            thin(alloc, &mut pairs)?;
        }
    }
    thin(alloc, &mut pairs)?;
    Ok(pairs)
}

/// The fault of too many pairs.
fn too_many(alloc: Global) -> Halt
    ensures { HaltsAmong {Y = ℕ} result (λ answer. answer ≡ Err too_many) }
{
    Halt::Fault(Fault::unnamed(alloc, Kind::TooManyPairs, Source::Jobs, 0))
}

/// Puts at the end the pairs of b and each other node that reaches it, the smaller number first. The only error is out of
/// memory.
fn add_pairs(jobs: &Jobs, pairs: &mut Vec<(u32, u32)>, b: u32) -> Result<(), AllocError>
    requires shape { IsWellFormed jobs.now }
    requires node { b < node_count jobs.now }
    requires clash { OnlyClashing jobs.now pairs.old.items }
    ensures clash { OnOk result (OnlyClashing jobs.now pairs.new.items) }
    ensures kept { OnOk result ((a c : ℕ) → Holds pairs.old.items a c → Holds pairs.new.items a c) }
    ensures added { OnOk result ((a : ℕ) → a ≢ b → Reaches (uses_of jobs.now) a b → Holds pairs.new.items a b) }
{
    let row = row_of(jobs, b);
    let mut from = 0;
    while let Some(a) = next_bit(&row, from) {
        if a < b {
            pairs.push((a, b))?;
        } else if b < a {
            pairs.push((b, a))?;
        }
        from = a + 1;
    }
    Ok(())
}

/// Drops pairs that stand there twice, and brings the others in order. Where more than `PAIR_LIMIT` are left the fault is
/// that of too many pairs.
pub(crate) fn thin(alloc: Global, pairs: &mut Vec<(u32, u32)>) -> Result<(), Halt>
    ensures rising { PairsRise pairs.new.items }
    ensures same { (a b : ℕ) → Contains pairs.new.items (a, b) ↔ Contains pairs.old.items (a, b) }
    ensures few { OnOk result (length pairs.new.items ≤ pair_limit) }
    ensures many { IfErr result (λ halt.
        HaltsAmong {Y = ℕ} halt (λ answer. (answer ≡ Err too_many) × (pair_limit < length pairs.new.items))) }
{
    pairs.sort_unstable();
    pairs.dedup();
    if pairs.len() > PAIR_LIMIT {
        return Err(too_many(alloc));
    }
    Ok(())
}
