//! Answers, and their reports.
ghost use Rattle.std.specs.Prelude.{◌≡◌, IfOk};
ghost use Rattle.mk_report.specs.Reports.{IsReport};
ghost use Rattle.mk_report.specs.declared.answer.BuildAnswer.TheVariants as answers;

use crate::race::push_race;
use crate::safe::push_safe;
use mk_jobs::jobs::Jobs;
use mk_name::fault::Fault;
use mk_name::report::refused_report;
use mk_proof::certificate::Certificate;
use mk_proof::trace::Trace;
use mk_proof::writing::{write_certificate, write_trace};
use std::alloc::{AllocError, Global};

/// What is answered of a build: its jobs with a certificate that no schedule matters; its jobs with the trace of a race; or
/// what is wrong with its texts.
#[derive(Debug, Drop)]
pub enum BuildAnswer {
    Safe(Jobs, Certificate),
    Race(Jobs, Trace),
    Refused(Fault),
}

/// The report of jobs with this certificate, or the text of the certificate. The only error is out of memory.
fn safe_report(
    alloc: Global,
    jobs: &Jobs,
    certificate: &Certificate,
    proof: bool,
) -> Result<Vec<u8>, AllocError>
    ensures { IfOk result (λ text. IsReport (answers.Safe jobs.now certificate.now) proof text.items) }
{
    if proof {
        return write_certificate(alloc, certificate);
    }
    let mut out = Vec::new(alloc);
    push_safe(&mut out, alloc, jobs, certificate)?;
    Ok(out)
}

/// The report of jobs with this trace, or the text of the trace. The only error is out of memory.
pub fn race_report(
    alloc: Global,
    jobs: &Jobs,
    trace: &Trace,
    proof: bool,
) -> Result<Vec<u8>, AllocError>
    ensures { IfOk result (λ text. IsReport (answers.Race jobs.now trace.now) proof text.items) }
{
    if proof {
        return write_trace(alloc, trace);
    }
    let mut out = Vec::new(alloc);
    push_race(&mut out, alloc, jobs, trace)?;
    Ok(out)
}

/// The report of an answer (profile); docs/FORMATS.md has the form of its lines. With `proof` it is the text of the
/// certificate or of the trace instead; what is refused has none, and is reported as ever. The only error is out of
/// memory.
pub fn report(alloc: Global, answer: &BuildAnswer, proof: bool) -> Result<Vec<u8>, AllocError>
    ensures { IfOk result (λ text. IsReport answer.now proof text.items) }
{
    match answer {
        BuildAnswer::Safe(jobs, certificate) => safe_report(alloc, jobs, certificate, proof),
        BuildAnswer::Race(jobs, trace) => race_report(alloc, jobs, trace, proof),
        BuildAnswer::Refused(fault) => refused_report(alloc, fault),
    }
}
