//! What is decided by walks, which no command takes for the order of nodes, and the least race by walks and by rows.
use crate::making::{Made, jobs_of};
use crate::small;
use crate::small::hold;
use crate::texts::is_text;
use mk_decide::decision::{Verdict, decide_with};
use mk_decide::least::least_race;
use mk_decide::rows::Rows;
use mk_decide::walk::Walk;
use mk_jobs::jobs::Jobs;
use mk_name::fault::Halt;
use mk_proof::writing::{write_certificate, write_trace};
use std::alloc::{AllocError, Global};

/// Whether this is the least race of the jobs, if there is one, and their certificate or trace.
fn is_decided(alloc: Global, made: &[Made<'_>], race: Option<(u32, u32)>, proof: &str) -> bool {
    hold(jobs_of(alloc, made), |jobs| {
        has_least(alloc, jobs, race) && has_proof(alloc, jobs, proof)
    })
}

/// Whether this is the least race, by a walk and by rows.
fn has_least(alloc: Global, jobs: &Jobs, race: Option<(u32, u32)>) -> bool {
    is_walked(alloc, jobs, race) && is_looked_up(alloc, jobs, race)
}

fn is_walked(alloc: Global, jobs: &Jobs, race: Option<(u32, u32)>) -> bool {
    match Walk::new(alloc, jobs) {
        Ok(mut walk) => least_race(jobs, &mut walk) == race,
        Err(_) => false,
    }
}

fn is_looked_up(alloc: Global, jobs: &Jobs, race: Option<(u32, u32)>) -> bool {
    match Rows::new(alloc, jobs) {
        Ok(mut rows) => least_race(jobs, &mut rows) == race,
        Err(_) => false,
    }
}

/// Whether the verdict by a walk is written so.
fn has_proof(alloc: Global, jobs: &Jobs, proof: &str) -> bool {
    match decided(alloc, jobs) {
        Ok(verdict) => is_text(written(alloc, &verdict), proof),
        Err(_) => false,
    }
}

fn decided(alloc: Global, jobs: &Jobs) -> Result<Verdict, Halt> {
    let mut walk = Walk::new(alloc, jobs)?;
    decide_with(alloc, jobs, &mut walk)
}

pub(crate) fn written(alloc: Global, verdict: &Verdict) -> Result<Vec<u8>, AllocError> {
    match verdict {
        Verdict::Safe(certificate) => write_certificate(alloc, certificate),
        Verdict::Race(trace) => write_trace(alloc, trace),
    }
}

fn are_race_free(alloc: Global) -> bool {
    is_decided(
        alloc,
        &small::TWO_OBJECTS,
        None,
        "certificate 2\n1 4\n3 4\n",
    ) && is_decided(
        alloc,
        &small::TEMPORARY_ORDERED,
        None,
        "certificate 1\n1 3 4\n",
    ) && is_decided(alloc, &small::IDLE_CONFIGURE, None, "certificate 0\n")
        && is_decided(
            alloc,
            &small::LOG_IN_LINE,
            None,
            "certificate 3\n1 2\n1 2 3\n2 3\n",
        )
}

#[test]
fn jobs_without_race(rt: HostRuntime) {
    assert!(rt; are_race_free(rt.alloc()));
}

static MISSING_HEADER: &str =
    "trace 1 3\npath 67656e2e68\ntime 0 5\ntime 2 3\nskip 0\nskip 2\nstart 1\nstart 3\nend\n";

static LIVE_CONFIGURE: &str =
    "trace 0 2\npath 636f6e6669672e6c6f67\ntime 1 3\nskip 1\nstart 0\nstart 2\nend\n";

static BEHIND_RECIPES: &str =
    "trace 3 5\npath 74\ntime 1 6\ntime 4 3\nskip 1\nstart 2\nfinish 2\nskip 4\nstart 3\nstart 5\nend\n";

static FILE_IN_TREE: &str =
    "trace 1 2\npath 6f75742f6c6f67\ntime 0 4\nskip 0\nstart 1\nstart 2\nend\n";

fn have_races(alloc: Global) -> bool {
    is_decided(alloc, &small::MISSING_HEADER, Some((1, 3)), MISSING_HEADER)
        && is_decided(alloc, &small::LIVE_CONFIGURE, Some((0, 2)), LIVE_CONFIGURE)
        && is_decided(alloc, &small::BEHIND_RECIPES, Some((3, 5)), BEHIND_RECIPES)
        && is_decided(alloc, &small::FILE_IN_TREE, Some((1, 2)), FILE_IN_TREE)
}

#[test]
fn jobs_with_a_race(rt: HostRuntime) {
    assert!(rt; have_races(rt.alloc()));
}
