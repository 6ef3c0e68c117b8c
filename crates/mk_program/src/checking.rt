//! The answers to `race check`.
ghost use Rattle.std.specs.Prelude.{◌≡◌, ◌≢◌, IfOk};
ghost use Rattle.mk_report.specs.Reports.{IsReport};
ghost use Rattle.mk_program.specs.Answers as spec;

use crate::answers::{Answer, fault_answer};
use crate::noting::Question;
use crate::statuses::Status;
use mk_files::failures::Failure;
use mk_jobs::jobs::Jobs;
use mk_race::judging::judge;
use mk_race::preparing::Prepared;
use mk_report::answer::{BuildAnswer, report};
use std::alloc::{AllocError, Global};

/// Whether a build is safe: by the report, or by its proof, which may be asked to be short.
#[derive(Clone, Copy)]
pub(crate) struct Checking {
    pub(crate) print_proof: bool,
    pub(crate) short: bool,
}

impl Question for Checking {
    ghost says = { λ asked texts footprints _. spec.IsCheckAnswer asked.short texts footprints asked.print_proof };

    ghost has_no_text = { λ _ _ _ _. ⊥ };

    fn answer(&self, alloc: Global, prepared: Prepared, _other: &[u8]) -> Result<Answer, Failure> {
        Ok(judged_of(alloc, prepared.jobs, self.print_proof, self.short)?)
    }
}

/// Whether these jobs, of a build or of tasks, are safe. The only error is out of memory.
pub(crate) fn judged_of(
    alloc: Global,
    jobs: Jobs,
    proof: bool,
    short: bool,
) -> Result<Answer, AllocError>
    ensures status { IfOk result (λ answer. answer.status ≢ Status.Failed) }
    ensures answer { IfOk result (λ answer.
        spec.IsJudgedAnswer short jobs proof answer.status answer.text.items) }
{
    let judged = judge(alloc, jobs, short)?;
    judged_answer(alloc, judged, proof)
}

/// What was judged, reported. The only error is out of memory.
fn judged_answer(alloc: Global, judged: BuildAnswer, proof: bool) -> Result<Answer, AllocError>
    ensures { IfOk result (λ answer. (answer.status ≡ spec.judged_status judged)
        × IsReport judged proof answer.text.items) }
{
    match judged {
        BuildAnswer::Safe(jobs, certificate) => Ok(Answer {
            status: Status::Done,
            text: report(alloc, &BuildAnswer::Safe(jobs, certificate), proof)?,
            fault: None,
        }),
        BuildAnswer::Race(jobs, trace) => Ok(Answer {
            status: Status::No,
            text: report(alloc, &BuildAnswer::Race(jobs, trace), proof)?,
            fault: None,
        }),
        BuildAnswer::Refused(fault) => fault_answer(alloc, fault),
    }
}
