//! The times of a trace, each at the place of its node.
ghost use Rattle.std.specs.Prelude.{◌≡◌, ◌<◌, ◌≤◌, ◌↔◌, ℕ, IfNone, IfOk, IfSome, IsTrue, None, get_or, is_some, length, true};
ghost use Rattle.mk_jobs.specs.Jobs.{is_listed, node_count};
ghost use Rattle.mk_cert.specs.Standing.{HoldsTimes, time_in};
ghost use Rattle.mk_cert.specs.Traces.{time_of};

use mk_jobs::jobs::Jobs;
use std::alloc::{AllocError, Global};

/// The times by their nodes, if each stands beside one of the first `count` nodes. The only error is out of memory.
pub(crate) fn by_node(
    alloc: Global,
    count: u32,
    times: &[(u32, u32)],
) -> Result<Option<Vec<Option<u32>>>, AllocError>
    ensures long { IfOk result (λ found. IfSome found (λ table. length table.items ≡ count)) }
    ensures reported { IfOk result (λ found. IfSome found (λ table. HoldsTimes table.items times.now)) }
    ensures none { IfOk result (λ found. IfNone found ((n : ℕ) × (count ≤ n) × (is_some (time_of times.now n) ≡ true))) }
{
    let mut table = vec![in alloc; None; count as usize]?;
    for place in 0..times.len() {
        let (node, time) = times[times.len() - 1 - place];
        if node >= count {
            return Ok(None);
        }
        table[node as usize] = Some(time);
    }
    Ok(Some(table))
}

/// The time of a node, and zero where it has none.
pub(crate) fn time(table: &[Option<u32>], n: u32) -> u32
    ensures { result ≡ time_in table.now n }
{
    table.get(n as usize).copied().unwrap_or(None).unwrap_or(0)
}

/// Whether just the listed nodes have a time.
pub(crate) fn are_of_listed(jobs: &Jobs, table: &[Option<u32>]) -> bool
    requires { length table.now ≡ node_count jobs.now }
    ensures { IsTrue result ↔ ((n : ℕ) → is_some (get_or table.now n None) ≡ is_listed jobs.now n) }
{
    for n in 0..jobs.count() {
        if table[n as usize].is_some() != jobs.is_listed(n) {
            return false;
        }
    }
    true
}
