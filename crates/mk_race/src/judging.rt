//! The answer whether jobs, of a build or of tasks, may run side by side.
ghost use Rattle.std.specs.Prelude.{ℕ, ◌≡◌, Err, IfErr, IfOk};
ghost use Rattle.mk_name.specs.Gives.{HaltsAmong};
ghost use Rattle.mk_name.specs.Reported.{Reported};
ghost use Rattle.mk_name.specs.declared.fault.Halt.TheVariants as halts;
ghost use Rattle.mk_report.specs.declared.answer.BuildAnswer.TheVariants as answers;
ghost use Rattle.mk_cert.specs.Traces.{TraceHolds};
ghost use Rattle.mk_decide.specs.Decisions.{IfRace, IsSafe};
ghost use Rattle.mk_decide.specs.Pairs.{too_many};
ghost use Rattle.mk_sched.specs.Laws.{IsDeterminate};
ghost use Rattle.mk_sched.specs.Schedules.{IsDeterminateFromOneRun};
ghost use Rattle.mk_race.specs.Judged.{HasTooMany, HoldsOfRace, HoldsOfSafe, IsDecided, IsSafeAnswer, IsVerdictOn, NoScheduleShows};
ghost use Rattle.mk_race.specs.Stages.{ForAllBuilds};
ghost use Rattle.mk_race.specs.Tasked.{ForAllTasks, NoScheduleOfTasksShows};

use mk_decide::decision::{Verdict, decide};
use mk_decide::short::decide_short;
use mk_jobs::jobs::Jobs;
use mk_name::fault::Halt;
use mk_report::answer::BuildAnswer;
use std::alloc::{AllocError, Global};

/// The answer of these jobs, of a build or of tasks: safe, where any two of their recipes that conflict are ordered by prerequisites,
/// with a certificate of that; a race, with the trace of the least one; or refused, where more than 1,000,000 pairs of recipes clash, with
/// `TooManyPairs` in the jobs at place 0. The short answer has a certificate of neighbours alone, and `TooManyPairs` only where more
/// than 1,000,000 pairs are neighbours. The only error is out of memory.
pub fn judge(alloc: Global, jobs: Jobs, short: bool) -> Result<BuildAnswer, AllocError>
    ensures answer { IfOk result (IsDecided short jobs) }
    // The headline: where the answer is that they are safe, no schedule of a build of these jobs shows in its files, whatever texts mean it.
    ensures headline { IfOk result (λ answer. IsSafeAnswer answer → ForAllBuilds jobs NoScheduleShows) }
    // The same of tasks, each of which starts then.
    ensures of_tasks { IfOk result (λ answer. IsSafeAnswer answer → ForAllTasks jobs NoScheduleOfTasksShows) }
    // The jobs that are handed out with it are then determinate.
    ensures determinate { IfOk result HoldsOfSafe }
    // Where it is a race, a run from any store that fits can follow the trace, and then both recipes run.
    ensures holds { IfOk result HoldsOfRace }
{
    match verdict_on(alloc, &jobs, short) {
        Ok(Verdict::Safe(certificate)) => Ok(BuildAnswer::Safe(jobs, certificate)),
        Ok(Verdict::Race(trace)) => Ok(BuildAnswer::Race(jobs, trace)),
        Err(halt) => refused(halt),
    }
}

/// The verdict on jobs, which may be asked to be short.
fn verdict_on(alloc: Global, jobs: &Jobs, short: bool) -> Result<Verdict, Halt>
    ensures answer { IfOk result (IsVerdictOn short jobs.now) }
    ensures determinate { IfOk result (λ verdict. IsSafe verdict → IsDeterminate jobs.now) }
    ensures from_one_run { IfOk result (λ verdict. IsSafe verdict → IsDeterminateFromOneRun jobs.now) }
    ensures holds { IfOk result (λ verdict. IfRace verdict (TraceHolds jobs.now)) }
    ensures many { IfErr result (λ halt.
        HaltsAmong {Y = ℕ} halt (λ answer. (answer ≡ Err too_many) × HasTooMany short jobs.now)) }
{
    if short {
        decide_short(alloc, jobs)
    } else {
        decide(alloc, jobs)
    }
}

/// What is refused with a fault; out of memory is no answer.
fn refused(halt: Halt) -> Result<BuildAnswer, AllocError>
    ensures { IfOk result (λ answer. (reported : Reported) × (halt ≡ halts.Fault reported)
        × (answer ≡ answers.Refused reported)) }
{
    match halt {
        Halt::Fault(fault) => Ok(BuildAnswer::Refused(fault)),
        Halt::Memory => Err(AllocError),
    }
}
