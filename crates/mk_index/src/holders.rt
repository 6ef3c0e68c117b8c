//! For each number the nodes that hold it.
ghost use Rattle.std.specs.Prelude.{ℕ, ◌≡◌, ◌<◌, ◌≤◌, ◌↔◌, ◌++◌, Contains, IfOk, List, OnOk, length, map};
ghost use Rattle.std.specs.List.Sorted.{IsNonDecreasingBy};
ghost use Rattle.mk_index.specs.Holders.{AreFirsts, ArePairs, IsRun, row_limit};
ghost use Rattle.mk_index.specs.Table.{row_of};

use crate::table::Table;
use std::alloc::{AllocError, Global};

/// For each number below the count the nodes whose row has it. The only error is out of memory.
pub fn holders(alloc: Global, rows: &Table, count: usize) -> Result<Table, AllocError>
    requires few { length rows.now ≤ row_limit }
    ensures count { IfOk result (λ holders. length holders ≡ count) }
    ensures hold { IfOk result (λ holders. (t n : ℕ) → t < count → Contains (row_of holders t) n ↔ Contains (row_of rows.now n) t) }
{
    let mut pairs = pairs_of(alloc, rows)?;
    pairs.sort_unstable_by_key(|pair| pair.0);
    firsts(alloc, &pairs, count)
}

/// Each number of a row, with the row's place.
fn pairs_of(alloc: Global, rows: &Table) -> Result<Vec<(u32, u32)>, AllocError>
    requires few { length rows.now ≤ row_limit }
    ensures { IfOk result (λ pairs. ArePairs rows.now (length rows.now) pairs.items) }
{
    let mut pairs = Vec::new(alloc);
    for n in 0..rows.count() {
        add_pairs(&mut pairs, rows.row(n), n as u32)?;
    }
    Ok(pairs)
}

/// Adds each number of a row with its place.
fn add_pairs(pairs: &mut Vec<(u32, u32)>, row: &[u32], n: u32) -> Result<(), AllocError>
    ensures { OnOk result (pairs.new.items ≡ pairs.old.items ++ map (λ t. (t, n)) row.now) }
{
    for &t in row {
        pairs.push((t, n))?;
    }
    Ok(())
}

/// For each number below the count what stands beside it in pairs, which are in order by their numbers.
fn firsts(alloc: Global, pairs: &[(u32, u32)], count: usize) -> Result<Table, AllocError>
    requires rise { IsNonDecreasingBy (λ pair. pair.0) pairs.now }
    ensures { IfOk result (λ table. AreFirsts pairs.now count table) }
{
    let nodes: Vec<u32> = pairs.iter().map(|pair| pair.1).collect(alloc)?;
    let mut table = Table::new(alloc);
    let mut start = 0;
    for t in 0..count {
        let end = run_end(pairs, start, t);
        table.push_row(&nodes[start..end])?;
        start = end;
    }
    Ok(table)
}

/// Where the pairs with a number end, of which the first stands at this place or none is.
fn run_end(pairs: &[(u32, u32)], start: usize, t: usize) -> usize
    requires { start ≤ length pairs.now }
    ensures { IsRun pairs.now start result t }
{
    let mut end = start;
    while end < pairs.len() && pairs[end].0 as usize <= t {
        end += 1;
    }
    end
}
