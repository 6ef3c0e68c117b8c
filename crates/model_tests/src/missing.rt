//! What jobs do not declare: a header that is late too, a file of three writers, a target that is listed, a header that is listed or
//! unlisted, and jobs that lack nothing.
use crate::making::{Made, jobs_of};
use crate::small;
use crate::small::{FILE, RULED, hold};
use mk_jobs::jobs::Jobs;
use mk_missing::violations::{Violations, find_violations};
use mk_text::listing::Listing;
use std::alloc::Global;

/// What is expected of jobs. A pair has the place of a file among all files that recipes touch, and a node.
struct Expected<'a> {
    missing: &'a [(u32, u32)],
    unlisted: usize,
    late: &'a [(u32, u32)],
    late_by: &'a [u32],
    shared: &'a [(u32, u32)],
    present: &'a [u32],
}

const NOTHING: Expected<'static> = Expected {
    missing: &[],
    unlisted: 0,
    late: &[],
    late_by: &[],
    shared: &[],
    present: &[],
};

static LATE_HEADER: Expected<'static> = Expected {
    missing: &[(2, 3)],
    late: &[(2, 3)],
    late_by: &[1],
    ..NOTHING
};

static SHARED_FILE: Expected<'static> = Expected {
    shared: &[(0, 0), (0, 1)],
    ..NOTHING
};

static PRESENT_OBJECT: Expected<'static> = Expected {
    present: &[1],
    ..NOTHING
};

static MISSING_HEADER: Expected<'static> = Expected {
    missing: &[(1, 1)],
    ..NOTHING
};

static UNLISTED_HEADER: Expected<'static> = Expected {
    unlisted: 1,
    ..NOTHING
};

/// An object whose recipe looks for a header that no prerequisite stands for.
static HEADER_NOT_NAMED: [Made<'static>; 2] = [
    Made {
        name: "a.c",
        ..FILE
    },
    Made {
        name: "a.o",
        needs: &[0],
        reads: &["a.c", "a.h"],
        writes: &["a.o"],
        ..RULED
    },
];

/// An object that is listed, and made all the same.
static LISTED_OBJECT: [Made<'static>; 2] = [
    Made {
        name: "a.c",
        ..FILE
    },
    Made {
        name: "a.o",
        needs: &[0],
        listed: true,
        reads: &["a.c"],
        writes: &["a.o"],
        ..RULED
    },
];

/// Whether this is found in jobs with the text of a listing.
fn finds_with(alloc: Global, made: &[Made<'_>], text: &[u8], expected: &Expected<'_>) -> bool {
    hold(
        jobs_of(alloc, made),
        |jobs| finds_in(alloc, jobs, text, expected),
    )
}

fn finds_in(alloc: Global, jobs: &Jobs, text: &[u8], expected: &Expected<'_>) -> bool {
    match Listing::read(alloc, text, jobs.root()) {
        Ok(listing) => finds(alloc, jobs, &listing, expected),
        Err(_) => false,
    }
}

fn finds(alloc: Global, jobs: &Jobs, listing: &Listing, expected: &Expected<'_>) -> bool {
    match find_violations(alloc, jobs, listing) {
        Ok(found) => is_same(&found, expected),
        Err(_) => false,
    }
}

fn is_same(found: &Violations, expected: &Expected<'_>) -> bool {
    found.missing.as_slice() == expected.missing
        && found.unlisted == expected.unlisted
        && found.late.as_slice() == expected.late
        && found.late_by.as_slice() == expected.late_by
        && found.shared.as_slice() == expected.shared
        && found.present.as_slice() == expected.present
}

fn is_found(alloc: Global, made: &[Made<'_>], expected: &Expected<'_>) -> bool {
    finds_with(alloc, made, b"", expected)
}

fn are_declared(alloc: Global) -> bool {
    is_found(alloc, &small::TWO_OBJECTS, &NOTHING)
        && is_found(alloc, &small::HEADER_NEEDED, &NOTHING)
        && is_found(alloc, &small::IDLE_CONFIGURE, &NOTHING)
}

#[test]
fn declared_jobs(rt: HostRuntime) {
    assert!(rt; are_declared(rt.alloc()));
}

fn lack_something(alloc: Global) -> bool {
    is_found(alloc, &small::MISSING_HEADER, &LATE_HEADER)
        && is_found(alloc, &small::THREE_WRITERS, &SHARED_FILE)
        && is_found(alloc, &LISTED_OBJECT, &PRESENT_OBJECT)
}

#[test]
fn jobs_that_lack_something(rt: HostRuntime) {
    assert!(rt; lack_something(rt.alloc()));
}

fn is_missed(alloc: Global) -> bool {
    finds_with(alloc, &HEADER_NOT_NAMED, b"a.c\na.h\n", &MISSING_HEADER)
        && finds_with(alloc, &HEADER_NOT_NAMED, b"a.c\n", &UNLISTED_HEADER)
}

#[test]
fn header_listed_or_unlisted(rt: HostRuntime) {
    assert!(rt; is_missed(rt.alloc()));
}
