//! Chains over two ways from one node to another.
ghost use Rattle.std.specs.Prelude.{◌≡◌, ◌<◌};
ghost use Rattle.mk_jobs.specs.Jobs.{node_count};

use crate::making::{Made, jobs_of};
use crate::small::{FILE, PLAIN, hold};
use mk_decide::before::Before;
use mk_decide::chains::chain;
use mk_decide::rows::Rows;
use mk_decide::walk::Walk;
use mk_jobs::jobs::Jobs;
use std::alloc::{AllocError, Global};

/// Two ways from the first node to the last but one.
static TWO_WAYS: [Made<'static>; 5] = [
    Made { name: "s", ..FILE },
    Made {
        name: "v",
        needs: &[0],
        ..PLAIN
    },
    Made {
        name: "u",
        needs: &[0],
        ..PLAIN
    },
    Made {
        name: "t",
        needs: &[1, 2],
        ..PLAIN
    },
    Made {
        name: "all",
        needs: &[3],
        ..PLAIN
    },
];

fn has_least_way(alloc: Global) -> bool {
    hold(jobs_of(alloc, &TWO_WAYS), |jobs| is_least_way(alloc, jobs))
}

fn is_least_way(alloc: Global, jobs: &Jobs) -> bool {
    jobs.count() == 5 && is_walked(alloc, jobs) && is_looked_up(alloc, jobs)
}

fn is_walked(alloc: Global, jobs: &Jobs) -> bool
    requires { node_count jobs.now ≡ 5 }
{
    match Walk::new(alloc, jobs) {
        Ok(mut walk) => has_chains(alloc, jobs, &mut walk),
        Err(AllocError) => false,
    }
}

fn is_looked_up(alloc: Global, jobs: &Jobs) -> bool
    requires { node_count jobs.now ≡ 5 }
{
    match Rows::new(alloc, jobs) {
        Ok(mut rows) => has_chains(alloc, jobs, &mut rows),
        Err(AllocError) => false,
    }
}

fn has_chains<B: Before>(alloc: Global, jobs: &Jobs, before: &mut B) -> bool
    requires same { B.jobs before.old ≡ jobs.now }
    requires count { node_count jobs.now ≡ 5 }
{
    has_chain(alloc, jobs, before, 0, 4, &[0, 1, 3, 4])
        && has_chain(alloc, jobs, before, 1, 2, &[])
        && has_chain(alloc, jobs, before, 0, 0, &[])
}

/// Whether this is the chain from a to b; no node where there is none.
fn has_chain<B: Before>(
    alloc: Global,
    jobs: &Jobs,
    before: &mut B,
    a: u32,
    b: u32,
    nodes: &[u32],
) -> bool
    requires same { B.jobs before.old ≡ jobs.now }
    requires first { a < node_count jobs.now }
    requires last { b < node_count jobs.now }
    ensures keeps { B.jobs before.new ≡ B.jobs before.old }
{
    match chain(alloc, jobs, before, a, b) {
        Ok(Some(found)) => found.as_slice() == nodes,
        Ok(None) => nodes.is_empty(),
        Err(_) => false,
    }
}

#[test]
fn takes_the_least_way(rt: HostRuntime) {
    assert!(rt; has_least_way(rt.alloc()));
}
