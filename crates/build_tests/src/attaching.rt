//! A plan that comes back where memory ran out, and is attached again, to footprints that are read again.
ghost use Rattle.std.specs.Prelude.{◌<◌};
ghost use Rattle.mk_jobs.specs.Jobs.{node_count};

use crate::builds::input_of;
use mk_foot::attaching::attach;
use mk_foot::footprints::Footprints;
use mk_foot::reading::read_footprints;
use mk_jobs::jobs::Jobs;
use mk_jobs::plan::Plan;
use mk_name::fault::Halt;
use mk_path::path::Path;
use mk_path::spelling::is_text_of;
use mk_race::planning::{Planned, plan_of};
use mk_rules::rulebook::Rulebook;
use mk_text::listing::Listing;
use mk_text::root::Root;
use std::alloc::{AllocError, Global};

static MAKEFILE: &[u8] = b"prog: a.o b.o\n\tcc\na.o: a.c\n\tcc\nb.o: b.c\n\tcc\n";

static FOOTPRINTS: &[u8] =
    b"{\"target\":\"prog\",\"reads\":[\"a.o\",\"b.o\"],\"writes\":[\"prog\"]}\n{\"target\":\"a.o\",\"reads\":[\"a.c\"],\"writes\":[\"a.o\"]}\n{\"target\":\"b.o\",\"reads\":[\"b.c\"],\"writes\":[\"b.o\"]}\n";

/// The test passes where memory runs out for one allocation of the first call, and for no other:
/// `tests/refused-memory` lets each allocation be refused in turn.
#[test]
fn attaches_again(rt: HostRuntime) -> Result<(), AllocError> {
    assert!(rt; is_attached(rt.alloc())?);
    Ok(())
}

/// Whether the jobs of the plan have their paths; that memory ran out, where there are none.
fn is_attached(alloc: Global) -> Result<bool, AllocError> {
    match jobs_of(alloc) {
        Ok(jobs) => Ok(have_paths(&jobs)),
        Err(_) => Err(AllocError),
    }
}

fn jobs_of(alloc: Global) -> Result<Jobs, Halt> {
    let listing = Listing::read(alloc, b"a.c\nb.c\n", &Root::read(alloc, b"/w")?)?;
    match plan_of(alloc, &input_of(MAKEFILE), Ok(listing)) {
        Ok(Planned { book, plan, .. }) => attached(alloc, plan, &book),
        Err(halt) => Err(halt),
    }
}

/// The jobs of a plan; where memory runs out, those of the plan that comes back.
fn attached(alloc: Global, plan: Plan, book: &Rulebook) -> Result<Jobs, Halt> {
    match attach(alloc, plan, book, footprints(alloc)?) {
        Err((plan, Halt::Memory)) => attached_again(alloc, plan, book),
        given => without_plan(given),
    }
}

fn attached_again(alloc: Global, plan: Plan, book: &Rulebook) -> Result<Jobs, Halt> {
    without_plan(attach(alloc, plan, book, footprints(alloc)?))
}

fn footprints(alloc: Global) -> Result<Footprints, Halt> {
    let root = Root::read(alloc, b"/w")?;
    read_footprints(alloc, FOOTPRINTS, &root)
}

fn without_plan(given: Result<Jobs, (Plan, Halt)>) -> Result<Jobs, Halt> {
    match given {
        Ok(jobs) => Ok(jobs),
        Err((_, halt)) => Err(halt),
    }
}

/// Whether each node has the paths of its line of footprints.
fn have_paths(jobs: &Jobs) -> bool {
    jobs.count() == 5
        && reads_and_writes(jobs, 0, &[], &[])
        && reads_and_writes(jobs, 1, &["a.c"], &["a.o"])
        && reads_and_writes(jobs, 2, &[], &[])
        && reads_and_writes(jobs, 3, &["b.c"], &["b.o"])
        && reads_and_writes(jobs, 4, &["a.o", "b.o"], &["prog"])
}

fn reads_and_writes(jobs: &Jobs, node: u32, reads: &[&str], writes: &[&str]) -> bool
    requires { node < node_count jobs.now }
{
    are_spelled(jobs.reads(node), reads) && are_spelled(jobs.writes(node), writes)
}

/// Whether paths are spelled so.
fn are_spelled(paths: &[Path], texts: &[&str]) -> bool {
    if paths.len() != texts.len() {
        return false;
    }
    for place in 0..paths.len() {
        if !is_text_of(&paths[place], texts[place].as_bytes()) {
            return false;
        }
    }
    true
}
