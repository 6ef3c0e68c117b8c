//! Builds that are planned twice.
use crate::builds::{Texts, build_of, holds_of, input_of, prepare};
use mk_name::fault::Halt;
use mk_race::fixing::{Fixing, fix_build};
use mk_race::missing::{MissingList, list_missing};
use std::alloc::Global;

/// The recipe of `a` reads what that of `b` writes, and does not say so.
static RACE: Texts<'static> = Texts {
    makefile: b"all: a b\na: ; x\nb: ; y\n",
    listing: b"",
    footprints: br#"{"target":"a","reads":["b"],"writes":["a"]}
{"target":"b","reads":[],"writes":["b"]}"#,
};

/// The lines of its fix, by which `a` comes first.
static FIX: &[u8] = b"# race fix: lines 1\nb: a # writes b, which a reads before it\n";

/// What comes of its fix.
fn fixing_of(alloc: Global, texts: &Texts<'_>) -> Result<Fixing, Halt> {
    let prepared = prepare(alloc, texts)?;
    let build = build_of(alloc, texts)?;
    fix_build(alloc, build, prepared.jobs)
}

/// Whether these lines fix it.
fn is_fixed(_alloc: Global, fixing: &Fixing) -> bool {
    match fixing {
        Fixing::Fixed { lines, jobs, .. } => { lines.as_slice() == FIX && jobs.count() == 3 }
        Fixing::NotFixed { .. } => false,
    }
}

#[test]
fn whole_texts_are_fixed(rt: HostRuntime) {
    let alloc = rt.alloc();
    assert!(rt; holds_of(alloc, fixing_of(alloc, &RACE), is_fixed));
}

/// What is missing of it.
fn missing_of(alloc: Global, texts: &Texts<'_>) -> Result<MissingList, Halt> {
    let prepared = prepare(alloc, texts)?;
    list_missing(alloc, &input_of(texts.makefile), prepared)
}

/// Whether the race is listed, and what `a` does not declare: it reads a file that a node after it writes. A second build is planned alike.
fn is_listed(_alloc: Global, listed: &MissingList) -> bool {
    listed.found.races.len() == 1
        && listed.violations.missing.len() == 1
        && listed.violations.late.len() == 1
        && listed.change.is_none()
}

#[test]
fn whole_texts_are_listed(rt: HostRuntime) {
    let alloc = rt.alloc();
    assert!(rt; holds_of(alloc, missing_of(alloc, &RACE), is_listed));
}
