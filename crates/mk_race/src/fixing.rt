//! The fix of a build: lines behind its makefile, which is then read and judged again.
ghost use Rattle.std.specs.Prelude.{◌≡◌, IfOk, Ok, Some};
ghost use Rattle.mk_name.specs.Gives.{Answers};
ghost use Rattle.mk_fix.specs.Fixes.{IsFix};
ghost use Rattle.mk_report.specs.FixText.{IsFixText};
ghost use Rattle.mk_race.specs.Fixed.{HoldsOfFixed, HoldsOfJobs, HoldsOfTried, IsFixing, IsFixingOf, IsTried, IsTriedOf, with_lines};
ghost use Rattle.mk_race.specs.Parts.{ForAllRead};
ghost use Rattle.mk_race.specs.Stages.{IsPrepared};
ghost use Rattle.mk_race.specs.declared.preparing.Prepared.{Prepared as SpecPrepared};

use crate::preparing::{Prepared, prepare_read};
use mk_decide::decision::is_race_free;
use mk_fix::again::have_all;
use mk_fix::fix::fix;
use mk_foot::footprints::Footprints;
use mk_jobs::jobs::Jobs;
use mk_name::fault::{Fault, Halt};
use mk_read::input::{Build, Input};
use mk_report::fixes::{FixLines, fix_lines};
use std::alloc::{AllocError, Global};

/// What comes of a build that is to be fixed.
#[derive(Debug, Drop)]
pub enum Fixing {
    /// The lines that go behind the makefile, none where the build is safe; and its jobs with them, which are safe.
    Fixed {
        lines: Vec<u8>,
        jobs: Jobs,
    },
    /// The jobs and the edges that they need, where no lines give them just these; and why the texts with the lines are
    /// refused, where they are.
    NotFixed {
        jobs: Jobs,
        edges: Vec<(u32, u32)>,
        refusal: Option<Fault>,
    },
}

/// What comes of lines behind a makefile.
#[derive(Drop)]
enum Tried {
    /// The build is safe, by these jobs, which have all that there was.
    Safe(Jobs),
    /// It is not; and why the texts are refused, where they are.
    Unsafe(Option<Fault>),
}

/// The lines that fix a build of these jobs: behind its makefile they give the jobs the edges of their fix (see [`fix`]), and nothing else.
/// Where there are any it was prepared with them, and is safe. [`certify`](mk_decide::decision::certify) gives the certificate of the jobs.
///
/// The first fault is `TooManyPairs` in the jobs at place 0, where more than 1,000,000 pairs of recipes clash. The only other error
/// is out of memory.
pub fn fix_build(alloc: Global, build: Build<'_>, jobs: Jobs) -> Result<Fixing, Halt>
    ensures answer { ForAllRead build.entry (λ texts lines. (prepared : SpecPrepared) → IsPrepared texts lines (Ok prepared)
        → prepared.jobs ≡ jobs → Answers result (IsFixing texts lines)) }
    // The headline: where lines fix the build, no schedule of it shows in the files, with them behind its makefile.
    ensures headline { IfOk result (λ fixing. ForAllRead build.entry (λ texts lines. (prepared : SpecPrepared)
        → IsPrepared texts lines (Ok prepared) → prepared.jobs ≡ jobs → HoldsOfFixed texts lines fixing)) }
    ensures safe { IfOk result HoldsOfJobs }
{
    fix_with(alloc, build, jobs)
}

/// A copy of footprints that were read, where they have no fault. The only error is out of memory.
pub fn copied(
    alloc: Global,
    footprints: &Result<Footprints, Fault>,
) -> Result<Option<Footprints>, AllocError>
    ensures { IfOk result (λ copy. IfOk footprints.now (λ read. copy ≡ Some read)) }
{
    match footprints {
        Ok(footprints) => Ok(Some(footprints.copy(alloc)?)),
        Err(_fault) => Ok(None),
    }
}

/// The lines that fix a build of these jobs. Where they need no edge, nothing is read again.
fn fix_with(alloc: Global, build: Build<'_>, jobs: Jobs) -> Result<Fixing, Halt>
    ensures answer { ForAllRead build.entry (λ texts lines. (prepared : SpecPrepared) → IsPrepared texts lines (Ok prepared)
        → prepared.jobs ≡ jobs → Answers result (IsFixingOf texts lines jobs)) }
    ensures safe { IfOk result HoldsOfJobs }
{
    let _count = jobs.count();
    let edges = fix(alloc, &jobs)?;
    if edges.as_slice().is_empty() {
        return Ok(Fixing::Fixed {
            lines: Vec::new(alloc),
            jobs,
        });
    }
    Ok(with_edges(alloc, build, jobs, edges)?)
}

/// The lines that give a build of these jobs these edges, which are their fix. The only error is out of memory.
fn with_edges(
    alloc: Global,
    build: Build<'_>,
    jobs: Jobs,
    edges: Vec<(u32, u32)>,
) -> Result<Fixing, AllocError>
    requires { IsFix jobs edges.items }
    ensures answer { IfOk result (λ fixing. ForAllRead build.entry
        (λ texts lines. IsFixingOf texts lines jobs (Ok fixing))) }
    ensures safe { IfOk result HoldsOfJobs }
{
    match fix_lines(alloc, &jobs, build.input.makefile, &edges) {
        Ok(FixLines::Text(lines)) => with_text(alloc, build, jobs, edges, lines),
        Ok(FixLines::NoWord) => Ok(Fixing::NotFixed {
            jobs,
            edges,
            refusal: None,
        }),
        Ok(FixLines::NoRoom) => Ok(Fixing::NotFixed {
            jobs,
            edges,
            refusal: None,
        }),
        Err(error) => Err(error),
    }
}

/// What comes of lines that say the fix of these jobs: they fix the build where it is safe with them, by jobs that have all. The
/// only error is out of memory.
fn with_text(
    alloc: Global,
    build: Build<'_>,
    jobs: Jobs,
    edges: Vec<(u32, u32)>,
    lines: Vec<u8>,
) -> Result<Fixing, AllocError>
    requires fix { IsFix jobs edges.items }
    requires says { IsFixText build.input.makefile.now jobs edges.items lines.items }
    ensures answer { IfOk result (λ fixing. ForAllRead build.entry
        (λ texts footprints. IsFixingOf texts footprints jobs (Ok fixing))) }
    ensures safe { IfOk result HoldsOfJobs }
{
    match try_lines(alloc, build, &jobs, &edges, &lines) {
        Ok(Tried::Safe(new)) => Ok(Fixing::Fixed { lines, jobs: new }),
        Ok(Tried::Unsafe(refusal)) => Ok(Fixing::NotFixed {
            jobs,
            edges,
            refusal,
        }),
        Err(error) => Err(error),
    }
}

/// What comes of a build with these lines behind its makefile, which say the fix of these jobs. The only error is out of memory.
fn try_lines(
    alloc: Global,
    build: Build<'_>,
    jobs: &Jobs,
    edges: &[(u32, u32)],
    lines: &[u8],
) -> Result<Tried, AllocError>
    requires fix { IsFix jobs.now edges.now }
    ensures answer { IfOk result (λ tried. ForAllRead build.entry
        (λ texts footprints. IsTried (with_lines texts lines.now) footprints jobs.now edges.now tried)) }
    ensures safe { IfOk result HoldsOfTried }
{
    match prepare_again(alloc, build, lines) {
        Ok(prepared) => try_jobs(alloc, jobs, edges, prepared.jobs),
        Err(Halt::Fault(fault)) => Ok(Tried::Unsafe(Some(fault))),
        Err(Halt::Memory) => Err(AllocError),
    }
}

/// Whether new jobs are safe, and have all that these jobs have, and these edges, which are their fix. The only error is out of
/// memory.
fn try_jobs(
    alloc: Global,
    jobs: &Jobs,
    edges: &[(u32, u32)],
    new: Jobs,
) -> Result<Tried, AllocError>
    requires { IsFix jobs.now edges.now }
    ensures answer { IfOk result (IsTriedOf jobs.now edges.now new) }
    ensures safe { IfOk result HoldsOfTried }
{
    match is_race_free(alloc, &new) {
        Ok(free) => {
            if !free {
                return Ok(Tried::Unsafe(None));
            }
            if have_all(jobs, edges, &new) {
                return Ok(Tried::Safe(new));
            }
            Ok(Tried::Unsafe(None))
        }
        Err(Halt::Fault(fault)) => Ok(Tried::Unsafe(Some(fault))),
        Err(Halt::Memory) => Err(AllocError),
    }
}

/// The jobs of a build with these lines behind its makefile.
fn prepare_again(alloc: Global, build: Build<'_>, lines: &[u8]) -> Result<Prepared, Halt>
    ensures { ForAllRead build.entry
        (λ texts footprints. Answers result (IsPrepared (with_lines texts lines.now) footprints)) }
{
    let mut makefile = Vec::from_slice(alloc, build.input.makefile)?;
    makefile.extend_from_slice(lines)?;
    prepare_with(alloc, build, &makefile)
}

/// The jobs of a build with this makefile in place of its own.
fn prepare_with(alloc: Global, build: Build<'_>, makefile: &[u8]) -> Result<Prepared, Halt>
    ensures { ForAllRead build.entry
        (λ texts footprints. Answers result (IsPrepared (record texts { makefile = makefile.now }) footprints)) }
{
    let Build {
        input,
        listing,
        footprints,
    } = build;
    let input = Input { makefile, ..input };
    prepare_read(
        alloc,
        Build {
            input,
            listing,
            footprints,
        },
    )
}
