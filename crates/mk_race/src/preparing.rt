//! From the texts of a build to its jobs.
ghost use Rattle.mk_name.specs.Gives.{Answers};
ghost use Rattle.mk_race.specs.Parts.{ForAllRead};
ghost use Rattle.mk_race.specs.Stages.{AreJobs, IsPrepared};

use crate::unused::note_read;
use mk_foot::attaching::attach;
use mk_foot::footprints::Footprints;
use mk_jobs::jobs::Jobs;
use mk_jobs::plan::Plan;
use mk_name::fault::Halt;
use mk_read::input::Build;
use mk_rules::rulebook::Rulebook;
use mk_text::listing::Listing;
use mk_text::root::Root;
use std::alloc::Global;

/// The jobs of a build, with what was read for them that its logs are read and judged by.
#[derive(Debug, Drop)]
pub struct Prepared {
    /// The folder that relative paths start from.
    pub root: Root,
    /// The files that are there.
    pub listing: Listing,
    /// The plan, with what each recipe reads and writes.
    pub jobs: Jobs,
}

/// The jobs of a build. The first fault is that of [`note_build`](crate::unused::note_build) where it is not strict. The only other error is
/// out of memory.
pub(crate) fn prepare_read(alloc: Global, build: Build<'_>) -> Result<Prepared, Halt>
    ensures { ForAllRead build.entry (λ texts lines. Answers result (IsPrepared texts lines)) }
{
    match note_read(alloc, build) {
        Ok(noted) => Ok(noted.prepared),
        Err(halt) => Err(halt),
    }
}

/// The jobs of a plan, whose book this is, with these footprints.
pub(crate) fn jobs_with(
    alloc: Global,
    plan: Plan,
    book: &Rulebook,
    footprints: Footprints,
) -> Result<Jobs, Halt>
    ensures { Answers result (AreJobs plan book.now footprints) }
{
    match attach(alloc, plan, book, footprints) {
        Ok(jobs) => Ok(jobs),
        Err((_plan, halt)) => Err(halt),
    }
}
