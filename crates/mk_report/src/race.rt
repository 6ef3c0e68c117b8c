//! The report of a race.
ghost use Rattle.std.specs.Prelude.{◌≡◌, ◌++◌, OnOk};
ghost use Rattle.std.specs.List.{flat_map};
ghost use Rattle.mk_report.specs.ReportText.{pair_text, race_text, step_line, step_word, time_line};

use crate::counts::push_counts;
use crate::names::push_name;
use crate::verb::{push_racer, spelled_path};
use itoa::Buffer;
use mk_jobs::jobs::Jobs;
use mk_name::report::push_shown;
use mk_proof::step::Step;
use mk_proof::trace::Trace;
use std::alloc::{AllocError, Global};

/// Puts the line of a time at the end. The only error is out of memory.
fn push_time(out: &mut Vec<u8>, jobs: &Jobs, node: u32, time: u32) -> Result<(), AllocError>
    ensures { OnOk result (out.new.items ≡ out.old.items ++ time_line jobs.now (node, time)) }
{
    let mut buffer = Buffer::new();
    out.extend_from_slice(b"time")?;
    push_name(out, jobs, node)?;
    out.push(b' ')?;
    out.extend_from_slice(buffer.format(time).as_bytes())?;
    out.push(b'\n')?;
    Ok(())
}

/// Puts the lines of times at the end. The only error is out of memory.
fn push_times(out: &mut Vec<u8>, jobs: &Jobs, times: &[(u32, u32)]) -> Result<(), AllocError>
    ensures { OnOk result (out.new.items ≡ out.old.items ++ flat_map (time_line jobs.now) times.now) }
{
    for timed in times {
        let (node, time) = *timed;
        push_time(out, jobs, node, time)?;
    }
    Ok(())
}

/// How a step is reported.
fn step_word(step: Step) -> &'static str
    ensures { result.now ≡ step_word step }
{
    match step {
        Step::Skip(_) => "skip",
        Step::Start(_) => "start",
        Step::Finish(_) => "finish",
    }
}

/// Puts the line of a step at the end. The only error is out of memory.
fn push_step(out: &mut Vec<u8>, jobs: &Jobs, step: Step) -> Result<(), AllocError>
    ensures { OnOk result (out.new.items ≡ out.old.items ++ step_line jobs.now step) }
{
    out.extend_from_slice(step_word(step).as_bytes())?;
    push_name(out, jobs, step.node())?;
    out.push(b'\n')?;
    Ok(())
}

/// Puts the lines of steps at the end. The only error is out of memory.
fn push_steps(out: &mut Vec<u8>, jobs: &Jobs, steps: &[Step]) -> Result<(), AllocError>
    ensures { OnOk result (out.new.items ≡ out.old.items ++ flat_map (step_line jobs.now) steps.now) }
{
    for step in steps {
        push_step(out, jobs, *step)?;
    }
    Ok(())
}

/// Puts the lines of a trace's path and of its two nodes at the end. The only error is out of memory.
fn push_pair(out: &mut Vec<u8>, alloc: Global, jobs: &Jobs, trace: &Trace) -> Result<(), AllocError>
    ensures { OnOk result (out.new.items ≡ out.old.items ++ pair_text jobs.now trace.now) }
{
    let path = spelled_path(alloc, trace.path())?;
    out.extend_from_slice(b"path ")?;
    push_shown(out, trace.path())?;
    out.push(b'\n')?;
    push_racer(out, jobs, b"first", trace.first(), &path)?;
    push_racer(out, jobs, b"second", trace.second(), &path)
}

/// Puts the report of a race at the end (profile): the counts, the path on which two nodes clash, the two with what each
/// does with it, times of files, and the steps after which both run. A number of the trace that is no node has no name there.
/// The only error is out of memory.
pub fn push_race(
    out: &mut Vec<u8>,
    alloc: Global,
    jobs: &Jobs,
    trace: &Trace,
) -> Result<(), AllocError>
    ensures { OnOk result (out.new.items ≡ out.old.items ++ race_text jobs.now trace.now) }
{
    out.extend_from_slice(b"race\n")?;
    push_counts(out, jobs)?;
    push_pair(out, alloc, jobs, trace)?;
    push_times(out, jobs, trace.times())?;
    push_steps(out, jobs, trace.steps())
}
