//! Nodes whose files are there before the build.
ghost use Rattle.std.specs.Prelude.{ℕ, ◌≡◌, ◌<◌, ◌↔◌, ◌&&◌, Contains, IfOk, not};
ghost use Rattle.std.specs.List.Sorted.{IsStrictlyIncreasing};
ghost use Rattle.mk_jobs.specs.Jobs as spec;
ghost use Rattle.mk_jobs.specs.Jobs.{node_count};
ghost use Rattle.mk_missing.specs.Violations.{IsPresent};

use crate::kept::keep;
use mk_jobs::jobs::Jobs;
use std::alloc::{AllocError, Global};

/// The live nodes that are not phony and are listed. The only error is out of memory.
pub(crate) fn present_nodes(alloc: Global, jobs: &Jobs) -> Result<Vec<u32>, AllocError>
    ensures rise { IfOk result (λ found. IsStrictlyIncreasing found.items) }
    ensures exact { IfOk result (λ found. (n : ℕ) → Contains found.items n ↔ IsPresent jobs.now n) }
{
    let mut found = Vec::new(alloc);
    for n in 0..jobs.count() {
        keep(&mut found, n, is_present(jobs, n))?;
    }
    Ok(found)
}

/// Whether a node is live and not phony, and is listed.
pub(crate) fn is_present(jobs: &Jobs, n: u32) -> bool
    requires { n < node_count jobs.now }
    ensures { result ≡ spec.is_live jobs.now n && not (spec.is_phony jobs.now n) && spec.is_listed jobs.now n }
{
    jobs.is_live(n) && !jobs.is_phony(n) && jobs.is_listed(n)
}
