//! All races of jobs, their fix, and jobs that were made again with its edges.
use crate::making::{Made, jobs_of};
use crate::small;
use crate::small::hold;
use mk_decide::rows::Rows;
use mk_fix::again::have_all;
use mk_fix::fix::fix;
use mk_fix::races::{Races, all_races};
use mk_jobs::jobs::Jobs;
use mk_name::fault::Halt;
use std::alloc::Global;

/// Whether jobs have just these races, and these edges are their fix.
fn is_fixed_by(
    alloc: Global,
    made: &[Made<'_>],
    races: &[(u32, u32)],
    edges: &[(u32, u32)],
) -> bool {
    hold(jobs_of(alloc, made), |jobs| {
        has_races(alloc, jobs, races) && has_fix(alloc, jobs, edges)
    })
}

fn has_races(alloc: Global, jobs: &Jobs, races: &[(u32, u32)]) -> bool {
    match listed(alloc, jobs) {
        Ok(found) => found.races.as_slice() == races,
        Err(_) => false,
    }
}

fn listed(alloc: Global, jobs: &Jobs) -> Result<Races, Halt> {
    let mut rows = Rows::new(alloc, jobs)?;
    all_races(alloc, jobs, &mut rows)
}

fn has_fix(alloc: Global, jobs: &Jobs, edges: &[(u32, u32)]) -> bool {
    match fix(alloc, jobs) {
        Ok(found) => found.as_slice() == edges,
        Err(_) => false,
    }
}

/// Whether the second jobs are the first, made again with the edges of their fix.
fn is_made_again(alloc: Global, made: &[Made<'_>], again: &[Made<'_>]) -> bool {
    hold(jobs_of(alloc, made), |jobs| is_again(alloc, jobs, again))
}

fn is_again(alloc: Global, jobs: &Jobs, again: &[Made<'_>]) -> bool {
    hold(jobs_of(alloc, again), |new| has_all(alloc, jobs, new))
}

fn has_all(alloc: Global, jobs: &Jobs, new: &Jobs) -> bool {
    match fix(alloc, jobs) {
        Ok(edges) => have_all(jobs, edges.as_slice(), new),
        Err(_) => false,
    }
}

static THREE_RACES: [(u32, u32); 3] = [(0, 1), (0, 2), (1, 2)];

static THREE_WRITERS: [(u32, u32); 2] = [(0, 1), (1, 2)];

fn are_fixed(alloc: Global) -> bool {
    is_fixed_by(alloc, &small::MISSING_HEADER, &[(1, 3)], &[(1, 3)])
        && is_fixed_by(alloc, &small::THREE_WRITERS, &THREE_RACES, &THREE_WRITERS)
}

#[test]
fn jobs_with_races(rt: HostRuntime) {
    assert!(rt; are_fixed(rt.alloc()));
}

fn need_no_fix(alloc: Global) -> bool {
    is_fixed_by(alloc, &small::TWO_OBJECTS, &[], &[])
        && is_fixed_by(alloc, &small::LOG_IN_LINE, &[], &[])
}

#[test]
fn jobs_without_races(rt: HostRuntime) {
    assert!(rt; need_no_fix(rt.alloc()));
}

fn are_made_again(alloc: Global) -> bool {
    is_made_again(alloc, &small::MISSING_HEADER, &small::HEADER_NEEDED)
        && !is_made_again(alloc, &small::MISSING_HEADER, &small::MISSING_HEADER)
        && !is_made_again(alloc, &small::MISSING_HEADER, &small::TWO_OBJECTS)
}

#[test]
fn jobs_that_were_made_again(rt: HostRuntime) {
    assert!(rt; are_made_again(rt.alloc()));
}
