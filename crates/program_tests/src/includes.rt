//! That the paths of includes are opened as they are written, which no folder shows, and that they come first.
use crate::ended::ends;
use crate::shelf::{Book, Page};
use mk_program::Status;
use std::alloc::Global;

static BOOKS: [Book<'static>; 7] = [
    Book {
        path: "makefile",
        page: Page::Text(b"include d/a.mk\nall: $(X)\n"),
    },
    Book {
        path: "listing",
        page: Page::Text(b"q\n"),
    },
    Book {
        path: "d/a.mk",
        page: Page::Text(b"X = p\np: q\n"),
    },
    // Files of includes.
    Book {
        path: "one",
        page: Page::Text(b"d/a.mk"),
    },
    Book {
        path: "spelled",
        page: Page::Text(b"\n./d//a.mk\n\n"),
    },
    Book {
        path: "two",
        page: Page::Text(b"d/a.mk\nbroken\n"),
    },
    Book {
        path: "broken",
        page: Page::Unreadable,
    },
];

/// Whether `race order` on the makefile of this path, with this file of includes, ends so.
fn ends_with(
    alloc: Global,
    includes: &str,
    makefile: &str,
    status: Status,
    out: &[u8],
    err: &[u8],
) -> bool {
    let words = [
        "race",
        "order",
        "--root",
        "/w",
        "--listing",
        "listing",
        "--makefile",
        makefile,
        "--includes",
        includes,
    ];
    ends(alloc, &words, &BOOKS, status, out, err)
}

/// Whether a read of this kind of file is reported to fail.
fn fails(alloc: Global, includes: &str, makefile: &str, line: &[u8]) -> bool {
    ends_with(alloc, includes, makefile, Status::Failed, b"", line)
}

fn is_opened(alloc: Global) -> bool {
    let order = b"0 plain q\n1 plain p : q\n";
    ends_with(alloc, "one", "makefile", Status::Done, order, b"")
}

#[test]
fn opens_paths_as_they_are_written(rt: HostRuntime) {
    assert!(rt; is_opened(rt.alloc()));
    assert!(rt;
        fails(
            rt.alloc(),
            "spelled",
            "makefile",
            b"race: read failed: include\n"
        )
    );
}

#[test]
fn names_the_includes_first(rt: HostRuntime) {
    assert!(rt; fails(rt.alloc(), "two", "absent", b"race: read failed: include\n"));
    assert!(rt;
        fails(
            rt.alloc(),
            "one",
            "absent",
            b"race: read failed: makefile\n"
        )
    );
}
