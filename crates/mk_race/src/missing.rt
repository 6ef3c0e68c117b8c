//! All that keeps a build of an old tree from leaving what a build of a clean tree leaves.
ghost use Rattle.std.specs.Prelude.{◌≡◌, IfOk, List, Ok, ℕ};
ghost use Rattle.mk_name.specs.Gives.{Answers};
ghost use Rattle.mk_sched.specs.Schedules.{IsDeterminateFromOneRun};
ghost use Rattle.mk_race.specs.Missing.{BuildsAsClean, IsEmpty, IsMissingList, IsMissingListOf, LeavesAsClean};
ghost use Rattle.mk_race.specs.Stages.{IsPrepared, Texts, texts_with};

use crate::again::{BuildChange, change_of};
use crate::listing::races_of;
use crate::preparing::Prepared;
use mk_fix::races::Races;
use mk_missing::violations::{Violations, find_violations};
use mk_name::fault::Halt;
use mk_read::input::Input;
use std::alloc::Global;

/// What was prepared of a build, the races of its jobs, what keeps these from being declared, and the first change that a second
/// build makes in its plan, if it makes one.
#[derive(Debug, Drop)]
pub struct MissingList {
    pub prepared: Prepared,
    pub found: Races,
    pub violations: Violations,
    pub change: Option<BuildChange>,
}

/// All races and all violations of a build that was prepared, each once, with its jobs; and the first change that a second build makes in
/// its plan, which finds what the first one made: the build is planned again with the names of its products listed too.
///
/// The first fault is `TooManyPairs` in the jobs at place 0, where more than 1,000,000 pairs of recipes clash. The only other error
/// is out of memory.
pub fn list_missing(
    alloc: Global,
    input: &Input<'_>,
    prepared: Prepared,
) -> Result<MissingList, Halt>
    ensures missing { (texts : Texts) (lines : List ℕ) → texts ≡ texts_with input.now texts.listing
        → IsPrepared texts lines (Ok prepared) → Answers result (IsMissingList texts lines) }
    // The headline: where there is none of these, a build of an old tree leaves what a build of a clean tree leaves, and no schedule
    // of the build shows in its files.
    ensures headline { IfOk result (λ listed. IsEmpty listed
        → (texts : Texts) (lines : List ℕ) → texts ≡ texts_with input.now texts.listing
        → IsPrepared texts lines (Ok prepared) → BuildsAsClean texts lines) }
{
    let change = change_of(alloc, input, &prepared)?;
    missing_of(alloc, prepared, change)
}

/// All races and all violations of what was prepared, each once, beside this change. Where more than 1,000,000 pairs of nodes clash the fault is
/// `TooManyPairs` in the jobs, at place 0.
pub(crate) fn missing_of(
    alloc: Global,
    prepared: Prepared,
    change: Option<BuildChange>,
) -> Result<MissingList, Halt>
    ensures missing { Answers result (IsMissingListOf prepared change) }
    ensures headline { IfOk result (λ listed. IsEmpty listed → LeavesAsClean prepared.jobs prepared.listing) }
    ensures from_one_run { IfOk result (λ listed. IsEmpty listed → IsDeterminateFromOneRun prepared.jobs) }
{
    let _count = prepared.jobs.count();
    let found = races_of(alloc, &prepared.jobs)?;
    let violations = find_violations(alloc, &prepared.jobs, &prepared.listing)?;
    Ok(MissingList {
        prepared,
        found,
        violations,
        change,
    })
}
