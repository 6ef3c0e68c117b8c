//! Pairs of nodes that clash, with nothing between them.
ghost use Rattle.std.specs.Prelude.{ℕ, ◌≡◌, ◌≢◌, ◌<◌, ◌≤◌, ◌+◌, ◌*◌, ◌↔◌, ◌⊎◌, ◌^◌, [], IfOk, OnOk, length};
ghost use Rattle.std.specs.List.{Contains};
ghost use Rattle.mk_index.specs.Bits.{HasBit};
ghost use Rattle.mk_index.specs.Uses.{Reaches};
ghost use Rattle.mk_jobs.specs.Jobs.{node_count};
ghost use Rattle.mk_jobs.specs.Reaching.{uses_of};
ghost use Rattle.mk_jobs.specs.Shape.{IsWellFormed};
ghost use Rattle.mk_decide.specs.Neighbours.{AreNeighbours, IsNeighbour};
ghost use Rattle.mk_decide.specs.Swept.{AreClashes, AreSwept, HasClashes, HasPair, HoldsPair, LeadsOn, cells, width};

use crate::marks::{WORDS, next_bit, row_of};
use crate::words::merge;
use mk_index::bits::{has_bit, set_bit};
use mk_jobs::jobs::Jobs;
use std::alloc::{AllocError, Global};

/// How many bits a row of the table has.
const CELLS: u32 = 64 * WORDS as u32;

/// All pairs of neighbours: nodes that clash, the smaller number first, where no node that the first one clashes with leads on to the
/// second. They stand there in any order. The only error is out of memory.
pub fn neighbours(alloc: Global, jobs: &Jobs) -> Result<Vec<(u32, u32)>, AllocError>
    ensures { IfOk result (λ pairs. AreNeighbours jobs.now pairs.items) }
{
    let mut table = vec![in alloc; 0; jobs.count() as usize * WORDS]?;
    fill_clashes(jobs, &mut table);
    let mut pairs = Vec::new(alloc);
    sweep_all(jobs, &mut table, &mut pairs)?;
    Ok(pairs)
}

/// Fills the rows of a table: each has the bits of the greater nodes that clash with its node.
fn fill_clashes(jobs: &Jobs, table: &mut [u64])
    requires { length table.old ≡ node_count jobs.now * width }
    ensures { AreClashes jobs.now table.new }
{
    table.fill(0);
    for b in 0..jobs.count() {
        add_clashes(jobs, table, b);
    }
}

/// Sets the bits of the pairs of b and each other node that reaches it.
fn add_clashes(jobs: &Jobs, table: &mut [u64], b: u32)
    requires shape { IsWellFormed jobs.now }
    requires node { b < node_count jobs.now }
    requires long { length table.old ≡ node_count jobs.now * width }
    requires clash { HasClashes jobs.now table.old }
    ensures clash { HasClashes jobs.now table.new }
    ensures kept { (x y : ℕ) → HasPair table.old x y → HasPair table.new x y }
    ensures added { (a : ℕ) → a ≢ b → Reaches (uses_of jobs.now) a b → HoldsPair table.new a b }
{
    let row = row_of(jobs, b);
    let mut from = 0;
    while let Some(a) = next_bit(&row, from) {
        if a < b {
            set_bit(table, a * CELLS + b);
        } else if b < a {
            set_bit(table, b * CELLS + a);
        }
        from = a + 1;
    }
}

/// Sweeps all rows, from the last one to the first, and puts the pairs of neighbours at the end. The only error is out of memory.
fn sweep_all(jobs: &Jobs, table: &mut [u64], pairs: &mut Vec<(u32, u32)>) -> Result<(), AllocError>
    requires long { length table.old ≡ node_count jobs.now * width }
    requires clashes { AreClashes jobs.now table.old }
    requires none { pairs.old.items ≡ [] }
    ensures { OnOk result (AreNeighbours jobs.now pairs.new.items) }
{
    let mut left = jobs.count();
    while left > 0 {
        left -= 1;
        sweep(jobs, table, pairs, left)?;
    }
    Ok(())
}

/// Turns row a from clashes to ties, and puts the pairs of a and its greater neighbours at the end. The only error is out of memory.
fn sweep(
    jobs: &Jobs,
    table: &mut [u64],
    pairs: &mut Vec<(u32, u32)>,
    a: u32,
) -> Result<(), AllocError>
    requires node { a < node_count jobs.now }
    requires long { length table.old ≡ node_count jobs.now * width }
    requires swept { AreSwept jobs.now table.old (a + 1) }
    ensures swept { OnOk result (AreSwept jobs.now table.new a) }
    ensures pairs { OnOk result ((x y : ℕ) → Contains pairs.new.items (x, y)
        ↔ (Contains pairs.old.items (x, y) ⊎ ((x ≡ a) × IsNeighbour jobs.now x y))) }
{
    let _count = jobs.count();
    let between = leading_on(jobs, table, a);
    push_alone(pairs, a, table_row(table, a), &between)?;
    merge_row(table, a, &between);
    Ok(())
}

/// The bits of the nodes that a leads on to: a clashes with a greater node that is tied to them. What an earlier one is tied to is
/// passed over.
fn leading_on(_jobs: &Jobs, table: &[u64], a: u32) -> [u64; WORDS]
    requires node { a < node_count _jobs.now }
    requires long { length table.now ≡ node_count _jobs.now * width }
    requires swept { AreSwept _jobs.now table.now (a + 1) }
    ensures { (b : ℕ) → HasBit result b ↔ LeadsOn table.now a b }
{
    let row = table_row(table, a);
    let mut between = [0; WORDS];
    let mut from = 0;
    while let Some(c) = next_bit(row, from) {
        if !has_bit(&between, c) {
            merge(&mut between, table_row(table, c));
        }
        from = c + 1;
    }
    between
}

/// Puts the pairs of a and each node at the end whose bit is in the row and not in the other one. The only error is out of memory.
fn push_alone(
    pairs: &mut Vec<(u32, u32)>,
    a: u32,
    row: &[u64],
    between: &[u64],
) -> Result<(), AllocError>
    requires wide { length row.now ≡ width }
    requires same { length between.now ≡ width }
    ensures { OnOk result ((x y : ℕ) → Contains pairs.new.items (x, y)
        ↔ (Contains pairs.old.items (x, y) ⊎ ((x ≡ a) × HasBit row.now y × ¬ HasBit between.now y))) }
{
    let mut from = 0;
    while let Some(b) = next_bit(row, from) {
        if !has_bit(between, b) {
            pairs.push((a, b))?;
        }
        from = b + 1;
    }
    Ok(())
}

/// The row of a node.
fn table_row(table: &[u64], node: u32) -> &[u64]
    requires { node * width + width ≤ length table.now }
    ensures wide { length result.now ≡ width }
    ensures bits { (b : ℕ) → HasBit result.now b ↔ HasPair table.now node b }
{
    let at = node as usize * WORDS;
    &table[at..at + WORDS]
}

/// Adds bits to the row of a node.
fn merge_row(table: &mut [u64], node: u32, bits: &[u64])
    requires there { node * width + width ≤ length table.old }
    requires wide { length bits.now ≡ width }
    ensures { (x y : ℕ) → HasPair table.new x y ↔ (HasPair table.old x y ⊎ ((x ≡ node) × HasBit bits.now y)) }
{
    let at = node as usize * WORDS;
    merge(&mut table[at..at + WORDS], bits);
}
