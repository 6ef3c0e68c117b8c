//! Lines of nodes, in which the smaller number is before the greater.
ghost use Rattle.std.specs.Prelude.{◌≡◌, ◌≤◌, ◌<◌};
ghost use Rattle.mk_jobs.specs.Jobs.{node_count};

use crate::making::line_of;
use crate::small::hold;
use mk_decide::before::Before;
use mk_decide::rows::Rows;
use mk_decide::walk::Walk;
use mk_jobs::jobs::Jobs;
use std::alloc::{AllocError, Global};

/// How many nodes the short lines have.
static COUNTS: [u32; 6] = [1, 64, 65, 512, 513, 600];

/// How many nodes the longest line has.
const LONGEST: u32 = 20000;

/// Whether in a line of so many nodes the smaller number is before the greater, by a walk and by rows. Only each node behind
/// `skipped` others is asked.
fn rises_of(alloc: Global, count: u32, skipped: u32) -> bool {
    hold(
        line_of(alloc, count),
        |jobs| is_line(alloc, jobs, count, skipped),
    )
}

fn is_line(alloc: Global, jobs: &Jobs, count: u32, skipped: u32) -> bool {
    jobs.count() == count && walk_rises(alloc, jobs, skipped) && rows_rise(alloc, jobs, skipped)
}

fn walk_rises(alloc: Global, jobs: &Jobs, skipped: u32) -> bool {
    match Walk::new(alloc, jobs) {
        Ok(mut walk) => rises(&mut walk, jobs.count(), skipped),
        Err(AllocError) => false,
    }
}

fn rows_rise(alloc: Global, jobs: &Jobs, skipped: u32) -> bool {
    match Rows::new(alloc, jobs) {
        Ok(mut rows) => rises(&mut rows, jobs.count(), skipped),
        Err(AllocError) => false,
    }
}

fn all_rise(alloc: Global) -> bool {
    let mut so = true;
    for count in &COUNTS {
        so &= rises_of(alloc, *count, 0);
    }
    so
}

#[test]
fn lines_rise(rt: HostRuntime) {
    assert!(rt; all_rise(rt.alloc()));
}

/// In the longest line the nodes that are asked lie in many blocks of rows.
#[test]
fn the_longest_line_rises(rt: HostRuntime) {
    assert!(rt; rises_of(rt.alloc(), LONGEST, 1364));
}

/// Whether of any two of the nodes that are asked the smaller is before the greater, and no other is.
fn rises<B: Before>(before: &mut B, count: u32, skipped: u32) -> bool
    requires { count ≤ node_count (B.jobs before.old) }
{
    let mut a = 0;
    while a < count {
        if !rises_behind(before, a, count, skipped) {
            return false;
        }
        a = next(a, skipped);
    }
    true
}

/// Whether node a is before the greater of the nodes that are asked, and before no other.
fn rises_behind<B: Before>(before: &mut B, a: u32, count: u32, skipped: u32) -> bool
    requires count { count ≤ node_count (B.jobs before.old) }
    requires first { a < count }
    ensures keeps { B.jobs before.new ≡ B.jobs before.old }
{
    let mut b = 0;
    while b < count {
        if before.before(a, b) != (a < b) {
            return false;
        }
        b = next(b, skipped);
    }
    true
}

/// The next node that is asked.
fn next(node: u32, skipped: u32) -> u32
    ensures { node < 4294967295 → node < result }
{
    node.saturating_add(skipped).saturating_add(1)
}
