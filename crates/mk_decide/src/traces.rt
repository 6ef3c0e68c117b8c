//! The trace that shows a race.
ghost use Rattle.std.specs.Prelude.{◌≡◌, ◌<◌, ◌++◌, ◌∷◌, [], IfOk, OnOk, false, get_or, length};
ghost use Rattle.mk_jobs.specs.Jobs.{Clash, node_count};
ghost use Rattle.mk_jobs.specs.Shape.{IsWellFormed};
ghost use Rattle.mk_proof.specs.declared.step.Step.TheVariants.{Start};
ghost use Rattle.mk_cert.specs.Races.{IsOfRace, ReportsEarly, early_steps, falling_times, passing};
ghost use Rattle.mk_decide.specs.LeastTraces.{HasNodes, SpellsLeast};
ghost use Rattle.mk_decide.specs.Races.{IsRace};

use crate::before::Before;
use mk_jobs::jobs::Jobs;
use mk_path::spelling::text_of;
use mk_proof::step::Step;
use mk_proof::trace::Trace;
use std::alloc::{AllocError, Global};

/// The trace of a race, on the least path on which its nodes clash. `before` must speak of the same jobs. The only error is
/// out of memory.
pub(crate) fn trace_of_race<B: Before>(
    alloc: Global,
    jobs: &Jobs,
    before: &mut B,
    first: u32,
    second: u32,
) -> Result<Trace, AllocError>
    requires same { B.jobs before.old ≡ jobs.now }
    requires shape { IsWellFormed jobs.now }
    requires race { IsRace jobs.now first second }
    ensures nodes { IfOk result (HasNodes first second) }
    ensures path { IfOk result (λ trace. SpellsLeast jobs.now first second trace.path) }
    ensures race { IfOk result (IsOfRace jobs.now) }
    ensures keeps { B.jobs before.new ≡ B.jobs before.old }
{
    let path = least_path(alloc, jobs, first, second)?;
    let times = times_of(alloc, jobs)?;
    let early = early_nodes(alloc, jobs, before, first, second)?;
    let steps = steps_of(alloc, jobs, &early, first, second)?;
    Ok(Trace::new(first, second, path, times, steps))
}

/// The spelling of the least path on which two nodes clash. The only error is out of memory.
fn least_path(alloc: Global, jobs: &Jobs, a: u32, b: u32) -> Result<Vec<u8>, AllocError>
    requires first { a < node_count jobs.now }
    requires second { b < node_count jobs.now }
    requires clash { Clash jobs.now a b }
    ensures { IfOk result (λ text. SpellsLeast jobs.now a b text.items) }
{
    match jobs.clash(a, b) {
        Some(path) => text_of(alloc, path),
        None => Ok(Vec::new(alloc)),
    }
}

/// The time of each listed node, beside it: how many nodes there are from it on. The only error is out of memory.
fn times_of(alloc: Global, jobs: &Jobs) -> Result<Vec<(u32, u32)>, AllocError>
    ensures { IfOk result (λ times. times.items ≡ falling_times jobs.now 0 (node_count jobs.now)) }
{
    let count = jobs.count();
    let mut times = Vec::new(alloc);
    for n in 0..count {
        if jobs.is_listed(n) {
            times.push((n, count - n))?;
        }
    }
    Ok(times)
}

/// For each node whether it is before one of two. Their numbers must be below the count of nodes. The only error is out of
/// memory.
fn early_nodes<B: Before>(
    alloc: Global,
    jobs: &Jobs,
    before: &mut B,
    first: u32,
    second: u32,
) -> Result<Vec<bool>, AllocError>
    requires same { B.jobs before.old ≡ jobs.now }
    requires first { first < node_count jobs.now }
    requires second { second < node_count jobs.now }
    ensures long { IfOk result (λ early. length early.items ≡ node_count jobs.now) }
    ensures reports { IfOk result (λ early. ReportsEarly jobs.now first second (λ n. get_or early.items n false)) }
    ensures keeps { B.jobs before.new ≡ B.jobs before.old }
{
    let mut early = Vec::new(alloc);
    for n in 0..jobs.count() {
        let is_early = before.before(n, first) || before.before(n, second);
        early.push(is_early)?;
    }
    Ok(early)
}

/// The early nodes pass, in rising order; then two nodes start. The only error is out of memory.
fn steps_of(
    alloc: Global,
    jobs: &Jobs,
    early: &[bool],
    first: u32,
    second: u32,
) -> Result<Vec<Step>, AllocError>
    requires { length early.now ≡ node_count jobs.now }
    ensures { IfOk result (λ steps. steps.items
        ≡ early_steps jobs.now (λ n. get_or early.now n false) (node_count jobs.now) ++ Start first ∷ Start second ∷ []) }
{
    let mut steps = Vec::new(alloc);
    for n in 0..jobs.count() {
        if early[n as usize] {
            push_passing(jobs, &mut steps, n)?;
        }
    }
    steps.push(Step::Start(first))?;
    steps.push(Step::Start(second))?;
    Ok(steps)
}

/// Puts at the end the steps by which a node passes: a live one starts and finishes, any other is skipped. Its number must be
/// below the count of nodes. The only error is out of memory.
fn push_passing(jobs: &Jobs, steps: &mut Vec<Step>, n: u32) -> Result<(), AllocError>
    requires { n < node_count jobs.now }
    ensures { OnOk result (steps.new.items ≡ steps.old.items ++ passing jobs.now n) }
{
    if jobs.is_live(n) {
        steps.push(Step::Start(n))?;
        steps.push(Step::Finish(n))?;
    } else {
        steps.push(Step::Skip(n))?;
    }
    Ok(())
}
