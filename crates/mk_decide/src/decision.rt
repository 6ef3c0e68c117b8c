//! Whether jobs are race-free, and what shows it.
ghost use Rattle.std.specs.Prelude.{ℕ, ◌≡◌, ◌↔◌, ◌≤◌, Err, IfErr, IfOk, IsTrue, false, length};
ghost use Rattle.mk_name.specs.Gives.{HaltsAmong};
ghost use Rattle.mk_jobs.specs.Jobs.{IsRaceFree};
ghost use Rattle.mk_jobs.specs.Shape.{IsWellFormed};
ghost use Rattle.mk_sched.specs.Laws.{IsDeterminate};
ghost use Rattle.mk_sched.specs.Schedules.{IsDeterminateFromOneRun};
ghost use Rattle.mk_cert.specs.Sure.{IsSure};
ghost use Rattle.mk_cert.specs.Traces.{TraceHolds};
ghost use Rattle.mk_decide.specs.Decisions.{AreSafe, AreSafeBy, IfRace, IsSafe, IsVerdict};
ghost use Rattle.mk_decide.specs.Pairs.{ArePairs, HasFewPairs, HasManyPairs, pair_limit, too_many};
ghost use Rattle.mk_decide.specs.Races.{HasLeastRace};

use crate::before::Before;
use crate::certificate::{certificate_of, first_race};
use crate::pairs::clashing_pairs;
use crate::rows::Rows;
use crate::traces::trace_of_race;
use mk_jobs::jobs::Jobs;
use mk_name::fault::Halt;
use mk_proof::certificate::Certificate;
use mk_proof::trace::Trace;
use std::alloc::{AllocError, Global};

/// What is decided about jobs.
#[derive(Debug, Drop)]
pub enum Verdict {
    /// They are race-free. The certificate has one chain for each pair of nodes that clash, from the one to the other, and no
    /// other chain.
    Safe(Certificate),
    /// The two nodes of the trace race: they clash, and neither is before the other. No other race precedes theirs, by first and
    /// then second number, and the path is the least on which they clash. Of N nodes the listed node n has the time N - n. In
    /// the steps all nodes before one of the two pass, in rising order, and then both start.
    Race(Trace),
}

/// Decides whether jobs are race-free (profile). If they are, they are determinate; if not, the trace holds, and is one that
/// `accept_trace` takes. `before` must speak of the same jobs. Where more than `PAIR_LIMIT` pairs of nodes clash the fault
/// is `TooManyPairs` in the jobs, at place 0. It goes over no pairs but those that clash, and asks `before` at most twice for
/// each node besides.
pub fn decide_with<B: Before>(alloc: Global, jobs: &Jobs, before: &mut B) -> Result<Verdict, Halt>
    requires same { B.jobs before.old ≡ jobs.now }
    ensures answer { IfOk result (IsVerdict jobs.now) }
    ensures determinate { IfOk result (λ verdict. IsSafe verdict → IsDeterminate jobs.now) }
    ensures from_one_run { IfOk result (λ verdict. IsSafe verdict → IsDeterminateFromOneRun jobs.now) }
    ensures holds { IfOk result (λ verdict. IfRace verdict (TraceHolds jobs.now)) }
    ensures sure { IfOk result (λ verdict. IfRace verdict (IsSure jobs.now)) }
    ensures few { IfOk result (λ verdict. HasFewPairs jobs.now) }
    ensures many { IfErr result (λ halt.
        HaltsAmong {Y = ℕ} halt (λ answer. (answer ≡ Err too_many) × HasManyPairs jobs.now)) }
    ensures keeps { B.jobs before.new ≡ B.jobs before.old }
{
    let _count = jobs.count();
    let pairs = clashing_pairs(alloc, jobs)?;
    let verdict = verdict_of(alloc, jobs, before, &pairs)?;
    Ok(verdict)
}

/// Decides by all clashing pairs. The only error is out of memory.
fn verdict_of<B: Before>(
    alloc: Global,
    jobs: &Jobs,
    before: &mut B,
    pairs: &[(u32, u32)],
) -> Result<Verdict, AllocError>
    requires same { B.jobs before.old ≡ jobs.now }
    requires shape { IsWellFormed jobs.now }
    requires pairs { ArePairs jobs.now pairs.now }
    requires few { length pairs.now ≤ pair_limit }
    ensures answer { IfOk result (IsVerdict jobs.now) }
    ensures keeps { B.jobs before.new ≡ B.jobs before.old }
{
    if let Some((a, b)) = first_race(jobs, before, pairs) {
        let trace = trace_of_race(alloc, jobs, before, a, b)?;
        return Ok(Verdict::Race(trace));
    }
    let chains = certificate_of(alloc, jobs, before, pairs)?;
    Ok(Verdict::Safe(chains))
}

/// The same, with rows of bits for the order of nodes.
pub fn decide(alloc: Global, jobs: &Jobs) -> Result<Verdict, Halt>
    ensures answer { IfOk result (IsVerdict jobs.now) }
    ensures determinate { IfOk result (λ verdict. IsSafe verdict → IsDeterminate jobs.now) }
    ensures from_one_run { IfOk result (λ verdict. IsSafe verdict → IsDeterminateFromOneRun jobs.now) }
    ensures holds { IfOk result (λ verdict. IfRace verdict (TraceHolds jobs.now)) }
    ensures sure { IfOk result (λ verdict. IfRace verdict (IsSure jobs.now)) }
    ensures few { IfOk result (λ verdict. HasFewPairs jobs.now) }
    ensures many { IfErr result (λ halt.
        HaltsAmong {Y = ℕ} halt (λ answer. (answer ≡ Err too_many) × HasManyPairs jobs.now)) }
{
    let mut rows = Rows::new(alloc, jobs)?;
    decide_with(alloc, jobs, &mut rows)
}

/// Whether jobs are race-free, as [`decide`] decides it, with the same fault; but with nothing to show it.
pub fn is_race_free(alloc: Global, jobs: &Jobs) -> Result<bool, Halt>
    ensures free { IfOk result (λ free. IsTrue free ↔ IsRaceFree jobs.now) }
    ensures race { IfOk result (λ free. free ≡ false → HasLeastRace jobs.now) }
    ensures from_one_run { IfOk result (λ free. IsTrue free → IsDeterminateFromOneRun jobs.now) }
    ensures few { IfOk result (λ free. HasFewPairs jobs.now) }
    ensures many { IfErr result (λ halt.
        HaltsAmong {Y = ℕ} halt (λ answer. (answer ≡ Err too_many) × HasManyPairs jobs.now)) }
{
    let _count = jobs.count();
    let pairs = clashing_pairs(alloc, jobs)?;
    let free = are_in_order(alloc, jobs, &pairs)?;
    Ok(free)
}

/// Whether jobs are race-free, of which these are all pairs that clash. The only error is out of memory.
pub fn are_in_order(alloc: Global, jobs: &Jobs, pairs: &[(u32, u32)]) -> Result<bool, AllocError>
    requires { ArePairs jobs.now pairs.now }
    ensures free { IfOk result (λ free. IsTrue free ↔ IsRaceFree jobs.now) }
    ensures race { IfOk result (λ free. free ≡ false → HasLeastRace jobs.now) }
{
    let _count = jobs.count();
    let mut rows = Rows::new(alloc, jobs)?;
    let race = first_race(jobs, &mut rows, pairs);
    Ok(race.is_none())
}

/// The certificate that [`decide`] gives of jobs that are known to be safe. The only error is out of memory.
pub fn certify(alloc: Global, jobs: &Jobs) -> Result<Certificate, AllocError>
    requires { AreSafe jobs.now }
    ensures { IfOk result (AreSafeBy jobs.now) }
{
    match decide(alloc, jobs) {
        Ok(Verdict::Safe(certificate)) => Ok(certificate),
        Ok(Verdict::Race(_trace)) => unreachable!(),
        Err(Halt::Fault(_fault)) => unreachable!(),
        Err(Halt::Memory) => Err(AllocError),
    }
}
