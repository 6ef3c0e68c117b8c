//! The fix of a text of tasks: the edges that its jobs need, and these jobs with them.
ghost use Rattle.std.specs.Prelude.{IfOk};
ghost use Rattle.mk_name.specs.Gives.{Answers};
ghost use Rattle.mk_race.specs.TasksFixed as spec;

use crate::tasked::prepare_tasks;
use mk_fix::added::with_edges;
use mk_fix::fix::fix;
use mk_jobs::jobs::Jobs;
use mk_name::fault::Halt;
use mk_report::fixes::task_lines;
use mk_report::not_fixed::task_needs_report;
use std::alloc::Global;

/// What comes of tasks that are to be fixed.
#[derive(Debug, Drop)]
pub enum TaskFixing {
    /// The lines that say which tasks have to stand behind which, none where the tasks are safe; and their jobs with these
    /// edges, which are safe.
    Fixed { lines: Vec<u8>, jobs: Jobs },
    /// What is said where the jobs with the edges that they need would have more than 200,000 edges.
    NotFixed { text: Vec<u8> },
}

/// The fix of a text of tasks below a root: the lines of its edges (see [`fix`]), and the jobs of the tasks with these edges, of which
/// [`certify`](mk_decide::decision::certify) gives the certificate.
///
/// The first fault is that of the jobs (see [`prepare_tasks`]), and then `TooManyPairs` in the jobs at place 0, where more than
/// 1,000,000 pairs of tasks clash. The only other error is out of memory.
pub fn fix_tasks(alloc: Global, root: &[u8], tasks: &[u8]) -> Result<TaskFixing, Halt>
    ensures answer { Answers result (spec.IsTaskFixing root.now tasks.now) }
    // The headline: where tasks are fixed, no schedule of them shows in the files, once they have the edges of their fix.
    ensures headline { IfOk result (spec.HoldsOfFixedTasks root.now tasks.now) }
    ensures safe { IfOk result spec.AreSafeIfFixed }
{
    let jobs = prepare_tasks(alloc, root, tasks)?;
    let _count = jobs.count();
    fix_jobs(alloc, &jobs)
}

/// The fix of the jobs of tasks. Where more than 1,000,000 pairs of nodes clash the fault is `TooManyPairs` in the jobs, at
/// place 0.
fn fix_jobs(alloc: Global, jobs: &Jobs) -> Result<TaskFixing, Halt>
    ensures { Answers result (spec.IsTaskFixingOf jobs.now) }
{
    let edges = fix(alloc, jobs)?;
    let Some(new) = with_edges(alloc, jobs, &edges)? else {
        let text = task_needs_report(alloc, jobs, &edges)?;
        return Ok(TaskFixing::NotFixed { text });
    };
    let lines = task_lines(alloc, jobs, &edges)?;
    Ok(TaskFixing::Fixed { lines, jobs: new })
}
