//! Listings and footprints that come in pieces.
ghost use Rattle.std.specs.Prelude.{◌<◌};

use crate::builds::holds_of;
use crate::reported::has_report;
use mk_foot::foot_reader::FootReader;
use mk_foot::footprints::Footprints;
use mk_name::fault::Halt;
use mk_name::name::Name;
use mk_text::list_reader::ListReader;
use mk_text::listing::Listing;
use mk_text::root::Root;
use std::alloc::Global;

static LISTING: &[u8] = b"a.c\n\n./b.c\na.c";

static BAD_LISTING: &[u8] = b"a.c\nb\0c\n/\n";

static FOOTPRINTS: &[u8] = br#"{"target":"a.o","reads":["a.c"],"writes":["a.o"]}
 
{"target":"b.o","reads":["b.c"],"writes":["b.o"]}
"#;

/// The last line is cut short.
static CUT_SHORT: &[u8] = br#"{"target":"a.o","reads":["a.c"],"writes":["a.o"]}
 
{"target":"b.o","reads":["b.c"],"writes":["b.o"]"#;

/// The length of the longest text.
const LONGEST: usize = 102;

static BAD_LISTING_REPORT: &str = "refused\nF1 BadName\nat listing 2\n";

static CUT_SHORT_REPORT: &str = "refused\nF19 BadFootprint\nat footprints 3\n";

static BAD_FIRST_REPORT: &str = "refused\nF19 BadFootprint\nat footprints 1\n";

/// A listing that comes in pieces of a size.
fn listing_in(alloc: Global, text: &[u8], size: usize) -> Result<Listing, Halt>
    requires { 0 < size }
{
    let mut reader = ListReader::new(alloc, Root::read(alloc, b"/w")?);
    for piece in text.chunks(size) {
        let _fed = reader.feed(piece);
    }
    reader.finish()
}

/// Footprints that come in pieces of a size.
fn footprints_in(alloc: Global, text: &[u8], size: usize) -> Result<Footprints, Halt>
    requires { 0 < size }
{
    let mut reader = FootReader::new(alloc, Root::read(alloc, b"/w")?);
    for piece in text.chunks(size) {
        let _fed = reader.feed(piece);
    }
    reader.finish()
}

/// Whether a listing has the two names of the good one.
fn has_names(_alloc: Global, listing: &Listing) -> bool {
    let mut so = listing.names().len() == 2;
    for name in listing.names() {
        so &= is_source(name);
    }
    so
}

fn is_source(name: &Name) -> bool {
    name.as_bytes() == b"a.c".as_slice() || name.as_bytes() == b"b.c".as_slice()
}

fn are_below(_alloc: Global, footprints: &Footprints) -> bool {
    footprints.root().text() == b"/w".as_slice()
}

/// Whether nothing was read, and this is the report of the fault.
fn is_refused<T: Drop>(alloc: Global, read: Result<T, Halt>, report: &str) -> bool {
    match read {
        Ok(_) => false,
        Err(halt) => has_report(alloc, &halt, report),
    }
}

/// Whether the good texts are read, and the bad ones reported, in pieces of any size, so that each is cut at all of its places.
fn are_read(alloc: Global) -> bool {
    let mut so = true;
    for size in 1..=LONGEST {
        so &= holds_of(alloc, listing_in(alloc, LISTING, size), has_names)
            && is_refused(
                alloc,
                listing_in(alloc, BAD_LISTING, size),
                BAD_LISTING_REPORT,
            )
            && holds_of(alloc, footprints_in(alloc, FOOTPRINTS, size), are_below)
            && is_refused(
                alloc,
                footprints_in(alloc, CUT_SHORT, size),
                CUT_SHORT_REPORT,
            );
    }
    so
}

#[test]
fn pieces_of_any_size(rt: HostRuntime) {
    assert!(rt; are_read(rt.alloc()));
}

/// The end of a line, and what comes behind it.
static PIECES: [&[u8]; 3] = [b"\n", b"{}\n", b""];

/// Whether the first line is taken, and its fault is reported of each piece from its end on.
fn are_bad(alloc: Global, reader: &mut FootReader) -> bool {
    let mut so = reader.feed(b"x").is_ok();
    for piece in &PIECES {
        so &= is_refused(alloc, reader.feed(piece), BAD_FIRST_REPORT);
    }
    so
}

/// Whether a bad line is reported by the piece that ends it, by all after it, and at the end.
fn stays_bad(alloc: Global, reader: FootReader) -> bool {
    let mut reader = reader;
    are_bad(alloc, &mut reader) && is_refused(alloc, reader.finish(), BAD_FIRST_REPORT)
}

fn reports_at_once(alloc: Global) -> bool {
    match Root::read(alloc, b"/w") {
        Ok(root) => stays_bad(alloc, FootReader::new(alloc, root)),
        Err(_) => false,
    }
}

#[test]
fn first_bad_line_is_reported_at_once(rt: HostRuntime) {
    assert!(rt; reports_at_once(rt.alloc()));
}
