//! The reports of builds, with ample memory, and where an allocation is refused.
use crate::shelf::{Book, Page, Shelf};
use mk_device::sink::Sink;
use mk_program::{Status, race_words};
use std::alloc::{AllocError, Global};

/// Files of builds: one that is safe, one that races, and one that is refused.
static BOOKS: [Book<'static>; 8] = [
    Book {
        path: "objects",
        page: Page::Text(b"prog: a.o b.o\n\tcc\na.o: a.c\n\tcc\nb.o: b.c\n\tcc\n"),
    },
    Book {
        path: "objects.list",
        page: Page::Text(b"a.c\nb.c\n"),
    },
    Book {
        path: "objects.foot",
        page: Page::Text(
            b"{\"target\":\"prog\",\"reads\":[\"a.o\",\"b.o\"],\"writes\":[\"prog\"]}\n{\"target\":\"a.o\",\"reads\":[\"a.c\"],\"writes\":[\"a.o\"]}\n{\"target\":\"b.o\",\"reads\":[\"b.c\"],\"writes\":[\"b.o\"]}\n",
        ),
    },
    Book {
        path: "header",
        page: Page::Text(b"all: gen.h a.o\ngen.h: gen.sh\n\tsh\na.o: a.c\n\tcc\n"),
    },
    Book {
        path: "header.list",
        page: Page::Text(b"gen.sh\na.c"),
    },
    Book {
        path: "header.foot",
        page: Page::Text(
            b"{\"target\":\"gen.h\",\"reads\":[\"gen.sh\"],\"writes\":[\"gen.h\"]}\n{\"target\":\"a.o\",\"reads\":[\"a.c\",\"gen.h\"],\"writes\":[\"a.o\"]}\n",
        ),
    },
    Book {
        path: "cycle",
        page: Page::Text(b"a: b\nb: c\nc: a\n"),
    },
    Book {
        path: "none",
        page: Page::Text(b""),
    },
];

/// What is asked of these files, and what is said.
struct Asked {
    words: [&'static str; 10],
    report: &'static [u8],
}

static ASKED: [Asked; 3] = [
    Asked {
        words: [
            "race",
            "check",
            "--root",
            "/w",
            "--makefile",
            "objects",
            "--listing",
            "objects.list",
            "--footprints",
            "objects.foot",
        ],
        report: b"safe\nnodes 5\nrecipes 3\nidle 0\nwaits 0\npairs 2\norder a.o : a.o prog\norder b.o : b.o prog\n",
    },
    Asked {
        words: [
            "race",
            "check",
            "--root",
            "/w",
            "--makefile",
            "header",
            "--listing",
            "header.list",
            "--footprints",
            "header.foot",
        ],
        report: b"race\nnodes 5\nrecipes 2\nidle 0\nwaits 0\npath gen.h\nfirst gen.h writes\nsecond a.o reads\ntime gen.sh 5\ntime a.c 3\nskip gen.sh\nskip a.c\nstart gen.h\nstart a.o\n",
    },
    Asked {
        words: [
            "race",
            "check",
            "--root",
            "/w",
            "--makefile",
            "cycle",
            "--listing",
            "none",
            "--footprints",
            "none",
        ],
        report: b"refused\nF17 Cycle\nat graph 0\nname a\nname b\nname c\nname a\n",
    },
];

/// More than the bytes of a report, or of a line on the standard error.
const LONGEST: usize = 400;

/// A device with room, so that it asks for no memory itself.
fn roomy(alloc: Global) -> Result<Vec<u8>, AllocError> {
    let mut text = Vec::new(alloc);
    text.reserve(LONGEST)?;
    Ok(text)
}

/// What is said; nothing where memory ran out when something was written.
fn reported(alloc: Global, words: &[&str]) -> Result<Vec<u8>, AllocError> {
    let mut out = Sink::new(roomy(alloc)?);
    let mut err = Sink::new(roomy(alloc)?);
    let mut shelf = Shelf { books: &BOOKS };
    let status = race_words(alloc, words, &mut shelf, &mut out, &mut err);
    let out = out.into_inner();
    if status == Status::Failed && out.is_empty() {
        return Err(AllocError);
    }
    Ok(out)
}

/// What is said; where memory ran out with nothing written, what is said at a second time.
fn reported_at_last(alloc: Global, words: &[&str]) -> Result<Vec<u8>, AllocError> {
    match reported(alloc, words) {
        Ok(said) => Ok(said),
        Err(_) => reported(alloc, words),
    }
}

fn are_reported(alloc: Global) -> Result<bool, AllocError> {
    let mut so = true;
    for asked in &ASKED {
        let said = reported_at_last(alloc, &asked.words)?;
        so &= said.as_slice() == asked.report;
    }
    Ok(so)
}

/// The test passes where memory runs out for one allocation of a run, and for no other: `tests/refused-memory` lets each
/// allocation be refused in turn.
#[test]
fn reports(rt: HostRuntime) -> Result<(), AllocError> {
    assert!(rt; are_reported(rt.alloc())?);
    Ok(())
}
