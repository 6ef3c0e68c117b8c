//! The answers to `race list`.
ghost use Rattle.std.specs.Prelude.{◌≡◌, ◌≢◌, IfOk, List, None, ℕ};
ghost use Rattle.mk_report.specs.RacesText.{IsRacesText};
ghost use Rattle.mk_program.specs.Answers as spec;
ghost use Rattle.mk_program.specs.FaultText.{refusal_in};

use crate::answers::{Answer, refused};
use crate::noting::Question;
use crate::statuses::Status;
use mk_files::failures::Failure;
use mk_jobs::jobs::Jobs;
use mk_race::listing::{RaceList, list_races};
use mk_race::preparing::Prepared;
use mk_report::races::races_report;
use std::alloc::{AllocError, Global};

/// All races of a build.
#[derive(Clone, Copy)]
pub(crate) struct AllRaces;

impl Question for AllRaces {
    ghost says = { λ _ texts footprints _. spec.IsListAnswer texts footprints };

    ghost has_no_text = { λ _ _ _ _. ⊥ };

    fn answer(&self, alloc: Global, prepared: Prepared, _other: &[u8]) -> Result<Answer, Failure> {
        Ok(list_over(alloc, prepared.jobs)?)
    }
}

/// The report of all races of these jobs, of a build or of tasks, or of their fault. The only error is out of memory.
pub(crate) fn list_over(alloc: Global, jobs: Jobs) -> Result<Answer, AllocError>
    ensures status { IfOk result (λ answer. answer.status ≢ Status.Failed) }
    ensures answer { IfOk result (λ answer. spec.IsRacesAnswer jobs answer.status answer.text.items) }
{
    match list_races(alloc, jobs) {
        Ok(listed) => races_answer(alloc, &listed),
        Err(halt) => refused(alloc, halt),
    }
}

/// The races of jobs, reported. The only error is out of memory.
fn races_answer(alloc: Global, listed: &RaceList) -> Result<Answer, AllocError>
    ensures { IfOk result (λ answer. (answer.status ≡ spec.races_status listed.now.found.races.items)
        × IsRacesText listed.now.jobs listed.now.found.pairs listed.now.found.races.items answer.text.items) }
{
    let races = listed.found.races.as_slice();
    let text = races_report(alloc, &listed.jobs, listed.found.pairs, races)?;
    Ok(Answer {
        status: races_status(races),
        text,
        fault: None,
    })
}

/// How the program ends: with 0 where there is no race.
fn races_status(races: &[(u32, u32)]) -> Status
    ensures status { result ≡ spec.races_status races.now }
    ensures no_refusal { (text : List ℕ) → refusal_in result text ≡ None }
{
    if races.is_empty() {
        return Status::Done;
    }
    Status::No
}
