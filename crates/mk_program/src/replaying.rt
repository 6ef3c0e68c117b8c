//! The answers to `race replay`.
ghost use Rattle.std.specs.Prelude.{◌≡◌, ◌≢◌, IfOk, List, None, Ok, ℕ};
ghost use Rattle.mk_race.specs.Stages.{IsPrepared, Texts};
ghost use Rattle.mk_program.specs.Answers as spec;
ghost use Rattle.mk_program.specs.FaultText.{refusal_in};
ghost use Rattle.mk_program.specs.OutcomeText.{IsOutcomeText};

use crate::answers::{Answer, refused};
use crate::noting::Question;
use crate::outcome_lines::outcome_text;
use crate::statuses::Status;
use mk_files::failures::Failure;
use mk_race::preparing::Prepared;
use mk_race::replaying::{Played, replay_log};
use mk_request::requests::LogArgs;
use std::alloc::{AllocError, Global};

/// What a log is, where so many nodes may run at once, and files of equal times count as newer if it says so.
#[derive(Clone, Copy)]
pub(crate) struct Replaying<'a> {
    pub(crate) log: LogArgs<'a>,
}

impl Question for Replaying<'_> {
    ghost says = { λ asked texts footprints log. spec.IsReplayAnswer texts footprints log asked.log.limit asked.log.tie };

    ghost has_no_text = { λ _ _ _ _. ⊥ };

    fn answer(&self, alloc: Global, prepared: Prepared, log: &[u8]) -> Result<Answer, Failure> {
        Ok(played_of(alloc, &prepared, log, self.log.limit, self.log.tie)?)
    }
}

/// What a log is to a build of these jobs, or the report of its fault.
fn played_of(
    alloc: Global,
    prepared: &Prepared,
    log: &[u8],
    limit: u16,
    tie: bool,
) -> Result<Answer, AllocError>
    ensures status { IfOk result (λ answer. answer.status ≢ Status.Failed) }
    ensures answer { IfOk result (λ answer. (texts : Texts) (footprints : List ℕ)
        → IsPrepared texts footprints (Ok prepared.now) → spec.IsReplayAnswer texts
        footprints log.now limit tie answer.status answer.text.items) }
{
    match replay_log(alloc, prepared, log, u32::from(limit), tie) {
        Ok(played) => outcome_answer(alloc, &played),
        Err(halt) => refused(alloc, halt),
    }
}

/// What a log is to a build, reported.
fn outcome_answer(alloc: Global, played: &Played) -> Result<Answer, AllocError>
    ensures { IfOk result (λ answer. (answer.status ≡ spec.status_of played.now)
        × IsOutcomeText played.now answer.text.items) }
{
    Ok(Answer {
        status: status_of(played),
        text: outcome_text(alloc, played)?,
        fault: None,
    })
}

/// How the program ends after a replay.
fn status_of(played: &Played) -> Status
    ensures status { result ≡ spec.status_of played.now }
    ensures no_refusal { (text : List ℕ) → refusal_in result text ≡ None }
{
    match played {
        Played::Allowed(_) => Status::Done,
        Played::NotAllowed { .. } => Status::No,
    }
}
