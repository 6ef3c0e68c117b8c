//! Laws of builds. Each function's contract is a law, and its body is empty.
ghost use Rattle.mk_race.specs.Laws.{BuildIsOne, FirstFaultIsOne, JobsAreListed, StoreAgrees};

/// The jobs of a build are listed exactly where its listing has their names.
pub fn jobs_are_listed()
    ensures { JobsAreListed }
{}

/// A store that agrees with the listing of a build agrees with its jobs.
pub fn store_agrees()
    ensures { StoreAgrees }
{}

/// The texts of a build mean one build: one root, one listing and one list of jobs, whoever reads them; or they have one
/// first fault, except that of several cycles either may be reported.
pub fn build_is_one()
    ensures prepared { BuildIsOne }
    ensures fault { FirstFaultIsOne }
{}
