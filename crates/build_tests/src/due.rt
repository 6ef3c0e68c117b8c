//! Tasks that say when they are due: what texts mean. Their faults are shown by cases.
ghost use Rattle.std.specs.Prelude.{◌<◌};
ghost use Rattle.mk_jobs.specs.Jobs.{node_count};

use crate::builds::holds_of;
use mk_jobs::jobs::Jobs;
use mk_path::path::Path;
use mk_path::spelling::is_text_of;
use mk_race::preparing::Prepared;
use mk_race::tasked::prepare_tasks;
use mk_race::tasks_missing::prepare_due_tasks;
use std::alloc::Global;

/// A made header, its folder, and an object that needs both files and waits for the folder.
static FIRST: &[u8] = br#"{"task":"mkdir","after":[],"reads":[],"writes":["out"]}
{"task":"gen","makes":"./gen.h","needs":["gen.in"],"after":[],"reads":["gen.in"],"writes":["gen.h"]}

{"task":"cc","makes":"a.o","needs":["a.c","gen.h","/w/a.c","gen.in"],"after":["gen","mkdir","gen"],"reads":["a.c","gen.h"],"writes":["a.o"]}
"#;

/// The task of a file that is listed, with no needs.
static OLD: &[u8] =
    br#"{"task":"old","makes":"old.o","needs":[],"after":[],"reads":[],"writes":["old.o"]}"#;

/// Tasks of which none says when it is due: the second waits for the first, and both write one file.
static ALWAYS: &[u8] = br#"{"task":"one","after":[],"reads":["x","x"],"writes":["log"]}
{"task":"two","after":["one","one"],"reads":[],"writes":["log","out/"]}
"#;

/// Whether this holds of what a text means, where a source and an object that is made are listed.
fn of_due<F: FnOnce(Global, &Prepared) -> bool>(alloc: Global, tasks: &[u8], holds: F) -> bool
    requires { F.IsAlwaysCallable holds }
{
    holds_of(
        alloc,
        prepare_due_tasks(alloc, b"/w", b"a.c\nold.o\n", tasks),
        holds,
    )
}

#[test]
fn lines_mean_nodes(rt: HostRuntime) {
    assert!(rt; of_due(rt.alloc(), FIRST, are_first));
}

/// Whether the jobs are those of the first text: the folder always runs, the header is due after its source, and the object
/// behind four nodes.
fn are_first(_alloc: Global, prepared: &Prepared) -> bool {
    let jobs = &prepared.jobs;
    jobs.count() == 6
        && is_task(jobs, 0, b"//\0mkdir", &[])
        && jobs.is_phony(0)
        && is_task(jobs, 2, b"gen.h", &[1])
        && is_task(jobs, 5, b"a.o", &[1, 2, 3, 4])
        && !jobs.is_phony(5)
        && !jobs.is_listed(5)
        && are_others(jobs)
}

/// Whether the sources are leaves, of which one is listed, and an order node waits for the folder.
fn are_others(jobs: &Jobs) -> bool {
    jobs.count() == 6
        && is_idle(jobs, 1, b"gen.in", &[])
        && !jobs.is_listed(1)
        && is_idle(jobs, 3, b"a.c", &[])
        && jobs.is_listed(3)
        && is_idle(jobs, 4, b"//\x01cc", &[0])
        && jobs.is_listed(4)
}

/// Whether a node has this name and a recipe that can run, and needs these nodes.
fn is_task(jobs: &Jobs, n: u32, name: &[u8], needs: &[u32]) -> bool
    requires { n < node_count jobs.now }
{
    is_node(jobs, n, name, needs) && jobs.is_live(n) && jobs.writes(n).len() == 1
}

/// Whether a node has this name and no recipe that can run, and needs these nodes.
fn is_idle(jobs: &Jobs, n: u32, name: &[u8], needs: &[u32]) -> bool
    requires { n < node_count jobs.now }
{
    is_node(jobs, n, name, needs) && !jobs.is_live(n) && jobs.writes(n).is_empty()
}

fn is_node(jobs: &Jobs, n: u32, name: &[u8], needs: &[u32]) -> bool
    requires { n < node_count jobs.now }
{
    jobs.name(n).as_bytes() == name && jobs.prerequisites(n) == needs
}

#[test]
fn a_listed_file_with_no_needs_is_idle(rt: HostRuntime) {
    assert!(rt; of_due(rt.alloc(), OLD, is_old));
}

fn is_old(_alloc: Global, prepared: &Prepared) -> bool {
    prepared.jobs.count() == 1 && is_idle(&prepared.jobs, 0, b"old.o", &[])
}

#[test]
fn without_keys_tasks_are_as_ever(rt: HostRuntime) {
    assert!(rt; of_due(rt.alloc(), ALWAYS, are_always_due) && are_as_ever(rt.alloc()));
}

fn are_always_due(alloc: Global, prepared: &Prepared) -> bool {
    are_always(alloc, &prepared.jobs)
}

/// Whether the tasks without keys mean the same to those who do not ask when they are due.
fn are_as_ever(alloc: Global) -> bool {
    holds_of(alloc, prepare_tasks(alloc, b"/w", ALWAYS), are_always)
}

/// Whether the jobs are those of the tasks without keys.
fn are_always(_alloc: Global, jobs: &Jobs) -> bool {
    jobs.count() == 2
        && always_runs(jobs, 0, b"//\0one", &[])
        && always_runs(jobs, 1, b"//\0two", &[0])
        && is_only(jobs.reads(0), b"x")
        && jobs.reads(1).is_empty()
        && is_only(jobs.writes(0), b"log")
        && are_two(jobs.writes(1), b"log", b"out/")
}

/// Whether a node is phony, and has this name and needs.
fn always_runs(jobs: &Jobs, n: u32, name: &[u8], needs: &[u32]) -> bool
    requires { n < node_count jobs.now }
{
    is_node(jobs, n, name, needs) && jobs.is_phony(n) && !jobs.is_listed(n)
}

/// Whether a path stands alone, and is spelled so.
fn is_only(paths: &[Path], text: &[u8]) -> bool {
    match paths {
        [path] => is_text_of(path, text),
        _ => false,
    }
}

/// Whether these are two paths that are spelled so.
fn are_two(paths: &[Path], first: &[u8], second: &[u8]) -> bool {
    match paths {
        [one, other] => is_text_of(one, first) && is_text_of(other, second),
        _ => false,
    }
}
