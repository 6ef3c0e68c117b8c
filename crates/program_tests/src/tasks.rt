//! The jobs that a text of tasks means. What is answered of tasks is shown by cases.
ghost use Rattle.std.specs.Prelude.{◌<◌};
ghost use Rattle.mk_jobs.specs.Jobs.{node_count};

use mk_jobs::jobs::Jobs;
use mk_path::path::Path;
use mk_path::spelling::is_text_of;
use mk_race::tasked::prepare_tasks;
use std::alloc::Global;

static FIRST: &[u8] =
    b"{\"task\":\"b o\",\"after\":[],\"reads\":[],\"writes\":[\"./sub/../x\",\"/w/x\",\"out/\"]}\n\n{\"task\":\"/\",\"place\":\"m:1\",\"after\":[\"b o\",\"b o\"],\"reads\":[\"/\",\"x\"],\"writes\":[]}\n";

#[test]
fn tasks_are_nodes(rt: HostRuntime) {
    assert!(rt; mean_first(rt.alloc()));
}

fn mean_first(alloc: Global) -> bool {
    holds_of(prepare_tasks(alloc, b"/w", FIRST), are_first)
}

/// Whether something was made, and this holds of it. It is generic, so that only here a large value is owned.
fn holds_of<T: Drop, E: Drop, F: FnOnce(&T) -> bool>(made: Result<T, E>, holds: F) -> bool
    requires { F.IsAlwaysCallable holds }
{
    match made {
        Ok(value) => holds(&value),
        Err(_) => false,
    }
}

/// Whether the jobs are those of the first text.
fn are_first(jobs: &Jobs) -> bool {
    jobs.count() == 2
        && is_node(jobs, 0, b"//\0b o", &[])
        && is_node(jobs, 1, b"//\0/", &[0])
        && have_paths(jobs)
}

/// Whether a node has this name and needs these nodes, and a recipe that always runs.
fn is_node(jobs: &Jobs, n: u32, name: &[u8], needs: &[u32]) -> bool
    requires { n < node_count jobs.now }
{
    jobs.name(n).as_bytes() == name
        && jobs.prerequisites(n) == needs
        && jobs.is_live(n)
        && jobs.is_phony(n)
        && !jobs.is_listed(n)
}

fn have_paths(jobs: &Jobs) -> bool {
    if jobs.count() != 2 {
        return false;
    }
    is_list(jobs.reads(0), &[])
        && is_list(jobs.writes(0), &["out/", "x"])
        && is_list(jobs.reads(1), &["//", "x"])
        && is_list(jobs.writes(1), &[])
}

/// Whether these paths are spelled so; the tree of everything is `//`.
fn is_list(paths: &[Path], texts: &[&str]) -> bool {
    paths.len() == texts.len()
        && paths
            .iter()
            .zip(texts)
            .all(|(path, text)| is_text_of(path, text.as_bytes()))
}
