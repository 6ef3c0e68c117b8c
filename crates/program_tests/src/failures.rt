//! What no case shows: which of two unreadable files is named, and a standard error that is full.
use crate::ended::ends;
use crate::shelf::{Book, Page, Shelf};
use mk_device::sink::Sink;
use mk_program::{Status, race_words};
use std::alloc::Global;
use std::io;
use std::io::{ErrorKind, Write};

/// A file that cannot be read.
static BOOKS: [Book<'static>; 1] = [Book {
    path: "broken",
    page: Page::Unreadable,
}];

#[test]
fn names_the_first_unreadable_file(rt: HostRuntime) {
    assert!(rt; names_the_makefile(rt.alloc()));
}

fn names_the_makefile(alloc: Global) -> bool {
    let words = [
        "race",
        "order",
        "--root",
        "/w",
        "--listing",
        "broken",
        "--makefile",
        "broken",
    ];
    let line = b"race: read failed: makefile\n";
    ends(alloc, &words, &BOOKS, Status::Failed, b"", line)
}

/// A writer that is full.
#[derive(Drop)]
struct Full;

impl Write for Full {
    fn write(&mut self, _buf: &[u8]) -> io::Result<usize> {
        Err(ErrorKind::StorageFull.into())
    }

    fn flush(&mut self) -> io::Result<()> {
        Ok(())
    }
}

#[test]
fn passes_over_a_full_standard_error(rt: HostRuntime) {
    assert!(rt; ends_as_failed(rt.alloc()));
}

fn ends_as_failed(alloc: Global) -> bool {
    let words = ["race", "order", "--help"];
    let mut shelf = Shelf { books: &BOOKS };
    let mut out = Sink::new(Full);
    let mut err = Sink::new(Full);
    race_words(alloc, &words, &mut shelf, &mut out, &mut err) == Status::Failed
}
