//! The fix of jobs: the races without a way around.
ghost use Rattle.std.specs.Prelude.{ℕ, ◌≡◌, ◌<◌, ◌≤◌, ◌*◌, ◌+◌, ◌↔◌, ◌⊎◌, [], All, Contains, Err, IfErr, IfOk, List, OnOk, get_or, length, map};
ghost use Rattle.mk_name.specs.Gives.{HaltsAmong};
ghost use Rattle.mk_index.specs.Bits.{HasBit};
ghost use Rattle.mk_jobs.specs.Jobs.{IsPrerequisite, node_count};
ghost use Rattle.mk_jobs.specs.Shape.{IsWellFormed};
ghost use Rattle.mk_decide.specs.Pairs.{ArePairs, HasFewPairs, HasManyPairs, too_many};
ghost use Rattle.mk_fix.specs.Fixes.{IsFix};
ghost use Rattle.mk_fix.specs.Musts.{AreDirect, AreDirectBelow, AreFirsts, AreMustRows, IsBehind, IsDirect, IsMustRow};

use crate::added::sources_of;
use mk_decide::decision::are_in_order;
use mk_decide::pairs::clashing_pairs;
use mk_decide::words::merge;
use mk_index::bits::{has_bit, set_bit};
use mk_jobs::jobs::Jobs;
use mk_name::fault::Halt;
use std::alloc::{AllocError, Global};

/// How many bits a word has.
const WORD: usize = 64;

/// The fix of these jobs, by first and then second number: the races that, added as edges, make the jobs race-free, where none
/// can be left out. There is one fix of any jobs, and it is empty just where they are race-free. Where more than `PAIR_LIMIT`
/// pairs of nodes clash the fault is `TooManyPairs` in the jobs, at place 0 (profile). For N nodes that race it takes N rows of N bits.
#[tactic(auto, using(crate::proofs::Direct::direct_fix))]
pub fn fix(alloc: Global, jobs: &Jobs) -> Result<Vec<(u32, u32)>, Halt>
    ensures fix { IfOk result (λ edges. IsFix jobs.now edges.items) }
    ensures few { IfOk result (λ edges. HasFewPairs jobs.now) }
    ensures many { IfErr result (λ halt.
        HaltsAmong {Y = ℕ} halt (λ answer. (answer ≡ Err too_many) × HasManyPairs jobs.now)) }
{
    let _count = jobs.count();
    let pairs = clashing_pairs(alloc, jobs)?;
    let free = are_in_order(alloc, jobs, &pairs)?;
    if free {
        return Ok(Vec::new(alloc));
    }
    let edges = direct_races(alloc, jobs, &pairs)?;
    Ok(edges)
}

/// The races without a way around. The only error is out of memory.
fn direct_races(
    alloc: Global,
    jobs: &Jobs,
    pairs: &[(u32, u32)],
) -> Result<Vec<(u32, u32)>, AllocError>
    requires pairs { ArePairs jobs.now pairs.now }
    ensures { IfOk result (λ edges. AreDirect jobs.now edges.items) }
{
    let count = jobs.count() as usize;
    let width = count.div_ceil(WORD);
    let firsts = sources_of(alloc, jobs, pairs)?;
    let mut words = vec![in alloc; 0; count * width]?;
    let mut edges = Vec::new(alloc);
    add_races(jobs, &firsts, width, &mut words, &mut edges)?;
    edges.sort_unstable();
    edges.dedup();
    Ok(edges)
}

/// Gathers the direct races of all nodes, in rising second number, and fills the row of each. The only error is out of memory.
fn add_races(
    jobs: &Jobs,
    firsts: &[Vec<u32>],
    width: usize,
    words: &mut [u64],
    edges: &mut Vec<(u32, u32)>,
) -> Result<(), AllocError>
    requires wide { node_count jobs.now ≤ 64 * width }
    requires long { length words.old ≡ node_count jobs.now * width }
    requires clear { All (λ word. word ≡ 0) words.old }
    requires count { length firsts.now ≡ node_count jobs.now }
    requires firsts { (b : ℕ) → b < node_count jobs.now → AreFirsts jobs.now (get_or (map (λ row. row.items) firsts.now) b []) b }
    requires none { edges.old.items ≡ [] }
    ensures { OnOk result (AreDirectBelow jobs.now edges.new.items (node_count jobs.now)) }
{
    for b in 0..jobs.count() {
        let (done, rest) = words.split_at_mut(b as usize * width);
        add_node(
            jobs,
            &firsts[b as usize],
            done,
            &mut rest[..width],
            b,
            edges,
        )?;
    }
    Ok(())
}

/// Gathers the direct races that end in b, and fills its row. The only error is out of memory.
fn add_node(
    jobs: &Jobs,
    firsts: &[u32],
    done: &[u64],
    row: &mut [u64],
    b: u32,
    edges: &mut Vec<(u32, u32)>,
) -> Result<(), AllocError>
    requires node { b < node_count jobs.now }
    requires wide { node_count jobs.now ≤ 64 * length row.old }
    requires long { length done.now ≡ b * length row.old }
    requires rows { AreMustRows jobs.now (length row.old) done.now b }
    requires clear { All (λ word. word ≡ 0) row.old }
    requires firsts { AreFirsts jobs.now firsts.now b }
    requires below { AreDirectBelow jobs.now edges.old.items b }
    ensures row { OnOk result (IsMustRow jobs.now row.new b) }
    ensures below { OnOk result (AreDirectBelow jobs.now edges.new.items (b + 1)) }
{
    let _count = jobs.count();
    let needs = jobs.prerequisites(b);
    merge_rows(row, done, needs);
    merge_rows(row, done, firsts);
    add_edges(jobs, firsts, row, b, edges)?;
    set_bits(row, needs);
    set_bits(row, firsts);
    Ok(())
}

/// Adds to a row the bits of the rows of some nodes.
fn merge_rows(row: &mut [u64], done: &[u64], nodes: &[u32])
    requires { All (λ p. p * length row.old + length row.old ≤ length done.now) nodes.now }
    ensures { (n : ℕ) → HasBit row.new n ↔ (HasBit row.old n ⊎ IsBehind (length row.old) done.now nodes.now n) }
{
    let width = row.len();
    for &p in nodes {
        let at = p as usize * width;
        merge(row, &done[at..at + width]);
    }
}

/// Sets in a row the bits of some nodes.
fn set_bits(row: &mut [u64], nodes: &[u32])
    requires { All (λ p. p < 64 * length row.old) nodes.now }
    ensures { (n : ℕ) → HasBit row.new n ↔ (HasBit row.old n ⊎ Contains nodes.now n) }
{
    for &p in nodes {
        set_bit(row, p);
    }
}

/// Puts at the end an edge to b from each of these nodes that is not in the row, and has no edge to b. The only error is out of
/// memory.
fn add_edges(
    jobs: &Jobs,
    firsts: &[u32],
    row: &[u64],
    b: u32,
    edges: &mut Vec<(u32, u32)>,
) -> Result<(), AllocError>
    requires node { b < node_count jobs.now }
    requires wide { All (λ p. p < 64 * length row.now) firsts.now }
    ensures kept { OnOk result ((e : ℕ × ℕ) → Contains edges.old.items e → Contains edges.new.items e) }
    ensures only { OnOk result ((x y : ℕ) → Contains edges.new.items (x, y) → Contains edges.old.items (x, y)
        ⊎ ((y ≡ b) × Contains firsts.now x × (IsPrerequisite jobs.now x b → ⊥) × (HasBit row.now x → ⊥))) }
    ensures all { OnOk result ((a : ℕ) → Contains firsts.now a → Contains edges.new.items (a, b) ⊎ (IsPrerequisite jobs.now a b ⊎ HasBit row.now a)) }
{
    for &a in firsts {
        if !has_bit(row, a) && !jobs.is_prerequisite(a, b) {
            edges.push((a, b))?;
        }
    }
    Ok(())
}
