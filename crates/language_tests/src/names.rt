//! Names, and the report of a refusal.
use crate::made::name_of;
use mk_name::fault::{Fault, Kind, Source};
use mk_name::name::Name;
use mk_name::report::refused_report;
use std::alloc::{AllocError, Global};

/// How many bytes of `parse.o` stay, what stands behind them, and the name.
static TAILS: [(usize, &str, &str); 4] = [
    (5, ".y", "parse.y"),
    (7, ".y", "parse.o.y"),
    (100, "x", "parse.ox"),
    (0, "a", "a"),
];

/// Whether a name is spelled so.
fn is_spelled(answer: Result<Name, AllocError>, want: &str) -> bool {
    match answer {
        Ok(name) => name.as_bytes() == want.as_bytes(),
        Err(AllocError) => false,
    }
}

fn tails_are_so(alloc: Global, name: &Name) -> bool {
    let mut so = is_spelled(name.copy(alloc), "parse.o");
    for (cut, tail, want) in &TAILS {
        so &= is_spelled(name.with_tail(alloc, *cut, tail.as_bytes()), want);
    }
    so
}

fn all_tails_are_so(alloc: Global) -> bool {
    match name_of(alloc, b"parse.o") {
        Ok(name) => tails_are_so(alloc, &name),
        Err(AllocError) => false,
    }
}

#[test]
fn tails(rt: HostRuntime) {
    assert!(rt; all_tails_are_so(rt.alloc()));
}

/// The report of a fault at the greatest place in an included text, whose name has a blank.
fn placed(alloc: Global) -> Result<Vec<u8>, AllocError> {
    let source = Source::Include(name_of(alloc, b"a b.mk")?);
    let fault = Fault::new(Kind::UnknownInclude, source, u64::MAX, Vec::new(alloc));
    refused_report(alloc, &fault)
}

fn is_reported(alloc: Global, want: &[u8]) -> bool {
    match placed(alloc) {
        Ok(report) => report.as_slice() == want,
        Err(AllocError) => false,
    }
}

#[test]
fn reports(rt: HostRuntime) {
    let want = b"refused\nF26 UnknownInclude\nat include:a\\x20b.mk 18446744073709551615\n";
    assert!(rt; is_reported(rt.alloc(), want));
}
