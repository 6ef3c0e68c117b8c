//! Walks along the steps of a trace.
ghost use Rattle.std.specs.Prelude.{◌≡◌, [], IfOk, length};
ghost use Rattle.mk_jobs.specs.Jobs.{node_count};
ghost use Rattle.mk_cert.specs.Standing.{time_in};
ghost use Rattle.mk_cert.specs.Sure.{all_pass};

use crate::standing::Standing;
use crate::surely::passes;
use mk_jobs::jobs::Jobs;
use mk_proof::step::Step;
use std::alloc::{AllocError, Global};

/// Whether the steps are surely allowed in turn, and both nodes run after them. The only error is out of memory.
pub(crate) fn all_pass(
    alloc: Global,
    jobs: &Jobs,
    times: &[Option<u32>],
    first: u32,
    second: u32,
    steps: &[Step],
) -> Result<bool, AllocError>
    ensures { IfOk result (λ pass. pass ≡ all_pass jobs.now (time_in times.now) first second [] steps.now) }
{
    let mut standing = Standing::new(alloc, jobs.count())?;
    for step in steps {
        if !passes(jobs, times, &standing, *step) {
            return Ok(false);
        }
        standing.make(*step);
    }
    Ok(standing.runs(first) && standing.runs(second))
}
