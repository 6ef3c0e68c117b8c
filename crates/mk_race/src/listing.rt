//! All races of jobs, of a build or of tasks.
ghost use Rattle.std.specs.Prelude.{◌≡◌, [], IfOk};
ghost use Rattle.mk_name.specs.Gives.{Answers};
ghost use Rattle.mk_race.specs.Judged.{NoScheduleShows};
ghost use Rattle.mk_race.specs.Listed.{AreFound, IsListedOf};
ghost use Rattle.mk_race.specs.Stages.{ForAllBuilds};
ghost use Rattle.mk_race.specs.Tasked.{ForAllTasks, NoScheduleOfTasksShows};

use mk_decide::rows::Rows;
use mk_fix::races::{Races, all_races};
use mk_jobs::jobs::Jobs;
use mk_name::fault::Halt;
use std::alloc::Global;

/// Jobs, and their races.
#[derive(Debug, Drop)]
pub struct RaceList {
    pub jobs: Jobs,
    pub found: Races,
}

/// All races of jobs, of a build or of tasks, each once, with the jobs. Where more than 1,000,000 pairs of recipes clash the fault is
/// `TooManyPairs` in the jobs, at place 0; the only other error is out of memory.
pub fn list_races(alloc: Global, jobs: Jobs) -> Result<RaceList, Halt>
    ensures races { Answers result (IsListedOf jobs) }
    // The headline: where there is no race, no schedule of a build of these jobs shows in its files.
    ensures headline { IfOk result (λ listed. listed.found.races.items ≡ [] → ForAllBuilds jobs NoScheduleShows) }
    // The same of tasks, each of which starts then.
    ensures of_tasks { IfOk result (λ listed. listed.found.races.items ≡ []
        → ForAllTasks jobs NoScheduleOfTasksShows) }
{
    let _count = jobs.count();
    let found = races_of(alloc, &jobs)?;
    Ok(RaceList { jobs, found })
}

/// All races of jobs. Where more than 1,000,000 pairs of nodes clash the fault is `TooManyPairs` in the jobs, at place 0.
pub(crate) fn races_of(alloc: Global, jobs: &Jobs) -> Result<Races, Halt>
    ensures { Answers result (AreFound jobs.now) }
{
    let mut rows = Rows::new(alloc, jobs)?;
    all_races(alloc, jobs, &mut rows)
}
