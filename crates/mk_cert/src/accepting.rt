//! Whether certificates and traces are good for jobs.
ghost use Rattle.std.specs.Prelude.{◌↔◌, IfOk, IsTrue};
ghost use Rattle.mk_proof.specs.Shapes.{trace_of};
ghost use Rattle.mk_sched.specs.Laws.{IsDeterminate};
ghost use Rattle.mk_cert.specs.Certificates.{IsCertificate};
ghost use Rattle.mk_cert.specs.Races.{IsOfRace};
ghost use Rattle.mk_cert.specs.Sure.{IsSure};
ghost use Rattle.mk_cert.specs.Traces.{TraceHolds};

use crate::clash::clash_on;
use crate::edges::are_chains;
use crate::pairs::has_chains;
use crate::times::{are_of_listed, by_node};
use crate::walk::all_pass;
use mk_jobs::jobs::Jobs;
use mk_proof::certificate::Certificate;
use mk_proof::step::Step;
use mk_proof::trace::Trace;
use std::alloc::{AllocError, Global};

/// Whether a certificate is one of these jobs (profile): its numbers are nodes; each chain goes along edges; and any two nodes
/// that clash are the ends of a chain. There may be other chains too. It takes no memory.
///
/// Jobs with a certificate are determinate: see the clause.
pub fn accept(jobs: &Jobs, certificate: &Certificate) -> bool
    ensures certificate { IsTrue result ↔ IsCertificate jobs.now certificate.now }
    ensures determinate { IsTrue result → IsDeterminate jobs.now }
{
    let _count = jobs.count();
    let _chains = certificate.count();
    are_chains(jobs, certificate) && has_chains(jobs, certificate)
}

/// Whether a trace shows a race of these jobs (profile): its nodes clash on its path; just the listed nodes have a time; by
/// these times alone each step is allowed after those before it, whatever else stands in the store; and at the end both
/// nodes run. The only error is out of memory.
///
/// A trace that is accepted holds. Not every trace that holds is accepted; the trace of a race is.
pub fn accept_trace(alloc: Global, jobs: &Jobs, trace: &Trace) -> Result<bool, AllocError>
    ensures sure { IfOk result (λ accepted. IsTrue accepted ↔ IsSure jobs.now trace.now) }
    ensures holds { IfOk result (λ accepted. IsTrue accepted → TraceHolds jobs.now trace.now) }
    ensures race { IfOk result (λ accepted. IsOfRace jobs.now trace.now → IsTrue accepted) }
{
    let _count = jobs.count();
    let accepted = is_sure(
        alloc,
        jobs,
        (trace.first(), trace.second()),
        trace.path(),
        trace.times(),
        trace.steps(),
    )?;
    Ok(accepted)
}

/// Whether the trace of these parts is sure. The only error is out of memory.
fn is_sure(
    alloc: Global,
    jobs: &Jobs,
    nodes: (u32, u32),
    path: &[u8],
    times: &[(u32, u32)],
    steps: &[Step],
) -> Result<bool, AllocError>
    ensures { IfOk result (λ sure. IsTrue sure ↔ IsSure jobs.now (trace_of nodes.0 nodes.1 path.now times.now steps.now)) }
{
    let (first, second) = nodes;
    let count = jobs.count();
    if first >= count || second >= count || !clash_on(jobs, first, second, path) {
        return Ok(false);
    }
    let Some(table) = by_node(alloc, count, times)? else {
        return Ok(false);
    };
    if !are_of_listed(jobs, &table) {
        return Ok(false);
    }
    let sure = all_pass(alloc, jobs, &table, first, second, steps)?;
    Ok(sure)
}
