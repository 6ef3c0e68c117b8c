//! Whether a proof is accepted for jobs, of a build or of tasks.
ghost use Rattle.std.specs.Prelude.{◌↔◌, IfOk, IsTrue};
ghost use Rattle.mk_name.specs.Gives.{Answers};
ghost use Rattle.mk_sched.specs.Laws.{IsDeterminate};
ghost use Rattle.mk_race.specs.Stages.{ForAllBuilds};
ghost use Rattle.mk_race.specs.Tasked.{ForAllTasks, ProofOfTasksShows};
ghost use Rattle.mk_race.specs.Verified.{IsCertificateOn, IsJudged, IsVerifiedOn, ProofShows};

use mk_cert::accepting::{accept, accept_trace};
use mk_decide::short::accept_short;
use mk_jobs::jobs::Jobs;
use mk_name::fault::Halt;
use mk_proof::certificate::Certificate;
use mk_proof::proof::Proof;
use mk_proof::reading::read_proof;
use std::alloc::{AllocError, Global};

/// Whether a proof is accepted for these jobs, of a build or of tasks: a certificate just where it puts in order all of their recipes that
/// conflict, so that every run of them leaves the same files; a trace just where it surely leads to two such recipes that
/// run at once. Of a short certificate it is asked that it puts in order the neighbours alone. The first fault is that of the proof by its
/// lines. The only other error is out of memory.
pub fn verify_proof(alloc: Global, jobs: &Jobs, proof: &[u8], short: bool) -> Result<bool, Halt>
    ensures answer { Answers result (IsVerifiedOn short jobs.now proof.now) }
    // The headline: where a certificate is accepted, no schedule of a build of these jobs shows in its files, whatever texts mean it.
    ensures shows { IfOk result (λ accepted. IsTrue accepted
        → ForAllBuilds jobs.now (λ texts footprints. ProofShows texts footprints proof.now)) }
    // The same of tasks.
    ensures of_tasks { IfOk result (λ accepted. IsTrue accepted
        → ForAllTasks jobs.now (λ root tasks. ProofOfTasksShows root tasks proof.now)) }
{
    let read = read_proof(alloc, proof)?;
    let accepted = judge(alloc, jobs, &read, short)?;
    Ok(accepted)
}

/// Whether these jobs accept a proof. The only error is out of memory.
fn judge(alloc: Global, jobs: &Jobs, proof: &Proof, short: bool) -> Result<bool, AllocError>
    ensures { IfOk result (IsJudged short jobs.now proof.now) }
{
    match proof {
        Proof::Certificate(certificate) => accept_as(alloc, jobs, certificate, short),
        Proof::Trace(trace) => accept_trace(alloc, jobs, trace),
    }
}

/// Whether these jobs accept a certificate, or accept it as a short one. The only error is out of memory.
fn accept_as(
    alloc: Global,
    jobs: &Jobs,
    certificate: &Certificate,
    short: bool,
) -> Result<bool, AllocError>
    ensures exact { IfOk result (λ accepted. IsTrue accepted ↔ IsCertificateOn short jobs.now certificate.now) }
    ensures determinate { IfOk result (λ accepted. IsTrue accepted → IsDeterminate jobs.now) }
{
    if short {
        accept_short(alloc, jobs, certificate)
    } else {
        Ok(accept(jobs, certificate))
    }
}
