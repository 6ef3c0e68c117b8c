//! Which nodes run in every build.
ghost use Rattle.std.specs.Prelude.{◌≡◌, ◌<◌, ◌≤◌, ◌&&◌, ◌||◌, ◌↔◌, All, IfOk, IsTrue, false, get_or, length};
ghost use Rattle.std.specs.List.{list_any};
ghost use Rattle.mk_jobs.specs.Jobs.{IsValid, node_count};
ghost use Rattle.mk_jobs.specs.Shape.{IsWellFormed};
ghost use Rattle.mk_missing.specs.Watching as watching;
ghost use Rattle.mk_missing.specs.Watching.{RunsAlways};
ghost use Rattle.mk_missing.specs.Hearing.{AreAlways};

use mk_jobs::jobs::Jobs;
use std::alloc::{AllocError, Global};

/// Whether a node makes its own file.
pub(crate) fn makes_own(jobs: &Jobs, n: u32) -> bool
    requires { n < node_count jobs.now }
    ensures { result ≡ watching.makes_own jobs.now n }
{
    jobs.may_write(n, jobs.name(n))
}

/// Whether a node's file is never there.
pub(crate) fn is_never_there(jobs: &Jobs, n: u32) -> bool
    requires { n < node_count jobs.now }
    ensures { result ≡ watching.is_never_there jobs.now n }
{
    !jobs.is_listed(n) && !makes_own(jobs, n)
}

/// Whether a node is phony or never there.
fn is_restless(jobs: &Jobs, n: u32) -> bool
    requires { n < node_count jobs.now }
    ensures { result ≡ watching.is_restless jobs.now n }
{
    jobs.is_phony(n) || is_never_there(jobs, n)
}

/// For each node whether it runs always. The only error is out of memory.
pub(crate) fn always_marks(alloc: Global, jobs: &Jobs) -> Result<Vec<bool>, AllocError>
    ensures marks { IfOk result (λ marks. AreAlways jobs.now marks.items (node_count jobs.now)) }
    ensures shape { IfOk result (λ marks. IsWellFormed jobs.now) }
{
    let mut marks = Vec::new(alloc);
    for n in 0..jobs.count() {
        let mark = runs_always(jobs, &marks, n);
        marks.push(mark)?;
    }
    Ok(marks)
}

/// Whether a node runs always, where those below it are marked that do.
fn runs_always(jobs: &Jobs, marks: &[bool], n: u32) -> bool
    requires valid { IsValid jobs.now }
    requires node { n < node_count jobs.now }
    requires marks { AreAlways jobs.now marks.now n }
    ensures { IsTrue result ↔ RunsAlways jobs.now n }
{
    jobs.is_live(n) && (is_restless(jobs, n) || is_woken(jobs, marks, jobs.prerequisites(n)))
}

/// Whether one of these nodes makes each run that needs it at once.
fn is_woken(jobs: &Jobs, marks: &[bool], nodes: &[u32]) -> bool
    requires marks { length marks.now ≤ node_count jobs.now }
    requires nodes { All (λ p. p < length marks.now) nodes.now }
    ensures { result ≡ list_any (λ p. watching.is_restless jobs.now p || (get_or marks.now p false && watching.makes_own jobs.now p)) nodes.now }
{
    nodes.iter().any(|&p| wakes(jobs, marks, p))
}

/// Whether a node makes each run that needs it at once: it is restless, or it is marked and makes its own file.
fn wakes(jobs: &Jobs, marks: &[bool], p: u32) -> bool
    requires marks { length marks.now ≤ node_count jobs.now }
    requires node { p < length marks.now }
    ensures { result ≡ watching.is_restless jobs.now p || (get_or marks.now p false && watching.makes_own jobs.now p) }
{
    is_restless(jobs, p) || (marks[p as usize] && makes_own(jobs, p))
}
