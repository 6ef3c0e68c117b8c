//! Short certificates: what makes them, and what takes them.
ghost use Rattle.std.specs.Prelude.{ℕ, ◌≡◌, ◌↔◌, Err, IfErr, IfOk, IsTrue};
ghost use Rattle.std.specs.List.{Contains};
ghost use Rattle.mk_name.specs.Gives.{HaltsAmong};
ghost use Rattle.mk_sched.specs.Laws.{IsDeterminate};
ghost use Rattle.mk_sched.specs.Schedules.{IsDeterminateFromOneRun};
ghost use Rattle.mk_cert.specs.Certificates.{IsAtEnds};
ghost use Rattle.mk_cert.specs.Sure.{IsSure};
ghost use Rattle.mk_cert.specs.Traces.{TraceHolds};
ghost use Rattle.mk_decide.specs.Decisions.{IfRace, IsSafe};
ghost use Rattle.mk_decide.specs.Pairs.{too_many};
ghost use Rattle.mk_decide.specs.Short.{IsShortCertificate};
ghost use Rattle.mk_decide.specs.ShortVerdicts.{HasManyNeighbours, IsShortVerdict};

use crate::before::Before;
use crate::certificate::certificate_of;
use crate::decision::Verdict;
use crate::least::least_race;
use crate::neighbours::neighbours;
use crate::pairs::thin;
use crate::rows::Rows;
use crate::traces::trace_of_race;
use mk_cert::edges::are_chains;
use mk_cert::search::has_chain;
use mk_jobs::jobs::Jobs;
use mk_name::fault::Halt;
use mk_proof::certificate::Certificate;
use std::alloc::{AllocError, Global};

/// Decides whether jobs are race-free, as [`decide`](crate::decision::decide) does, and gives a short certificate of safe jobs: one chain
/// for each pair of neighbours, and no other chain. So there may be any number of pairs that clash; where more than `PAIR_LIMIT` pairs
/// are neighbours the fault is `TooManyPairs` in the jobs, at place 0.
pub fn decide_short(alloc: Global, jobs: &Jobs) -> Result<Verdict, Halt>
    ensures answer { IfOk result (IsShortVerdict jobs.now) }
    ensures determinate { IfOk result (λ verdict. IsSafe verdict → IsDeterminate jobs.now) }
    ensures from_one_run { IfOk result (λ verdict. IsSafe verdict → IsDeterminateFromOneRun jobs.now) }
    ensures holds { IfOk result (λ verdict. IfRace verdict (TraceHolds jobs.now)) }
    ensures sure { IfOk result (λ verdict. IfRace verdict (IsSure jobs.now)) }
    ensures many { IfErr result (λ halt.
        HaltsAmong {Y = ℕ} halt (λ answer. (answer ≡ Err too_many) × HasManyNeighbours jobs.now)) }
{
    let _count = jobs.count();
    let mut rows = Rows::new(alloc, jobs)?;
    if let Some((a, b)) = least_race(jobs, &mut rows) {
        let trace = trace_of_race(alloc, jobs, &mut rows, a, b)?;
        return Ok(Verdict::Race(trace));
    }
    let mut pairs = neighbours(alloc, jobs)?;
    thin(alloc, &mut pairs)?;
    let chains = certificate_of(alloc, jobs, &mut rows, &pairs)?;
    Ok(Verdict::Safe(chains))
}

/// Whether a certificate is a short one of these jobs: its numbers are nodes; each chain goes along edges; and any two neighbours are the
/// ends of a chain. There may be other chains too. Such jobs are determinate. The only error is out of memory.
pub fn accept_short(
    alloc: Global,
    jobs: &Jobs,
    certificate: &Certificate,
) -> Result<bool, AllocError>
    ensures certificate { IfOk result (λ accepted. IsTrue accepted ↔ IsShortCertificate jobs.now certificate.now) }
    ensures determinate { IfOk result (λ accepted. IsTrue accepted → IsDeterminate jobs.now) }
{
    let _count = jobs.count();
    let _chains = certificate.count();
    if !are_chains(jobs, certificate) {
        return Ok(false);
    }
    let pairs = neighbours(alloc, jobs)?;
    Ok(has_all(certificate, &pairs))
}

/// Whether each of these pairs are the ends of a chain.
fn has_all(certificate: &Certificate, pairs: &[(u32, u32)]) -> bool
    ensures { IsTrue result ↔ ((a b : ℕ) → Contains pairs.now (a, b) → IsAtEnds certificate.now a b) }
{
    for i in 0..pairs.len() {
        let (a, b) = pairs[i];
        if !has_chain(certificate, a, b) {
            return false;
        }
    }
    true
}
