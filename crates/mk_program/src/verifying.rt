//! The answers to `race verify`.
ghost use Rattle.std.specs.Prelude.{◌≡◌, ◌≢◌, IfOk};
ghost use Rattle.mk_program.specs.Answers as spec;

use crate::answers::{Answer, refused};
use crate::noting::Question;
use crate::statuses::Status;
use mk_files::failures::Failure;
use mk_jobs::jobs::Jobs;
use mk_race::preparing::Prepared;
use mk_race::verifying::verify_proof;
use std::alloc::{AllocError, Global};

/// Whether a proof is accepted, or accepted as a short one.
#[derive(Clone, Copy)]
pub(crate) struct Verifying {
    pub(crate) short: bool,
}

impl Question for Verifying {
    ghost says = { λ asked. spec.IsVerifyAnswer asked.short };

    ghost has_no_text = { λ _ _ _ _. ⊥ };

    fn answer(&self, alloc: Global, prepared: Prepared, proof: &[u8]) -> Result<Answer, Failure> {
        Ok(verdict_of(alloc, &prepared.jobs, proof, self.short)?)
    }
}

/// Whether a proof is accepted for these jobs, of a build or of tasks, or the report of its fault. The only error is out of memory.
pub(crate) fn verdict_of(
    alloc: Global,
    jobs: &Jobs,
    proof: &[u8],
    short: bool,
) -> Result<Answer, AllocError>
    ensures status { IfOk result (λ answer. answer.status ≢ Status.Failed) }
    ensures answer { IfOk result (λ answer.
        spec.IsVerdictAnswer short jobs.now proof.now answer.status answer.text.items) }
{
    match verify_proof(alloc, jobs, proof, short) {
        Ok(accepted) => verdict_answer(alloc, accepted),
        Err(halt) => refused(alloc, halt),
    }
}

/// Whether a proof is accepted, reported.
fn verdict_answer(alloc: Global, accepted: bool) -> Result<Answer, AllocError>
    ensures { IfOk result (λ answer. (answer.status ≡ spec.verdict_status accepted)
        × (answer.text.items ≡ spec.verdict_text accepted)) }
{
    if accepted {
        return Ok(Answer {
            status: Status::Done,
            text: Vec::from_slice(alloc, b"accepted\n")?,
            fault: None,
        });
    }
    Ok(Answer {
        status: Status::No,
        text: Vec::from_slice(alloc, b"not accepted\n")?,
        fault: None,
    })
}
