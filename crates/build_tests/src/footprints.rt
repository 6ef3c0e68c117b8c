//! What the lines of footprints leave in jobs. Those of one target unite, each path counts once in whatever spelling, and a
//! slash at the end makes a tree.
use crate::builds::of_build;
use mk_path::path::Path;
use mk_race::preparing::Prepared;
use std::alloc::Global;

fn is_path(path: &Path, name: &[u8], tree: bool) -> bool {
    path.name.as_bytes() == name && path.tree == tree
}

/// Whether these are what `a` reads, in the byte order of their names.
fn are_read(paths: &[Path]) -> bool {
    match paths {
        [first, second, third] => {
            is_path(first, b"w", false)
                && is_path(second, b"x", false)
                && is_path(third, b"y", false)
        }
        _ => false,
    }
}

/// Whether these are what `a` writes.
fn are_written(paths: &[Path]) -> bool {
    match paths {
        [first, second, third] => {
            is_path(first, b"/tmp/t", false)
                && is_path(second, b"a", false)
                && is_path(third, b"out", true)
        }
        _ => false,
    }
}

/// Whether the second of two nodes is live, and reads and writes just these.
fn are_united(_alloc: Global, prepared: &Prepared) -> bool {
    let jobs = &prepared.jobs;
    jobs.count() == 2 && jobs.is_live(1) && are_read(jobs.reads(1)) && are_written(jobs.writes(1))
}

#[test]
fn lines_of_one_target_unite(rt: HostRuntime) {
    assert!(rt; of_build(rt.alloc(), are_united));
}
