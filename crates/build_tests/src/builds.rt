//! What the tests begin with: builds below `/w`, names, and a store.
use mk_foot::reading::read_footprints;
use mk_name::fault::Halt;
use mk_name::name::Name;
use mk_race::preparing::Prepared;
use mk_race::unused::note_build;
use mk_read::input::{Build, Input};
use mk_sched::contents::Contents;
use mk_sched::store::Store;
use mk_text::listing::Listing;
use mk_text::root::Root;
use std::alloc::{AllocError, Global};

/// A makefile below `/w`, with a listing and footprints.
#[derive(Clone, Copy)]
pub(crate) struct Texts<'a> {
    pub(crate) makefile: &'a [u8],
    pub(crate) listing: &'a [u8],
    pub(crate) footprints: &'a [u8],
}

/// The goal `a`, whose recipe needs a file with a name that is no text: that is node 0, and `a` node 1. There are footprints of
/// `a` and of one target that no goal needs.
static TEXTS: Texts<'static> = Texts {
    makefile: b"a: \xe9 ;",
    listing: b"\xe9",
    footprints: br#"{"target":"a","reads":["y","x","./d/../y"],"writes":["a"]}
{"target":"b","reads":["z"],"writes":["a"]}
{"target":"./x/../a","reads":["/w/w","x"],"writes":["/tmp/t","out/","/w//a"]}"#,
};

/// The input of this makefile.
pub(crate) fn input_of(makefile: &[u8]) -> Input<'_> {
    Input {
        root: b"/w",
        operands: &[],
        base: b"",
        makefile,
        includes: &[],
    }
}

/// The build of these texts.
pub(crate) fn build_of<'a>(alloc: Global, texts: &Texts<'a>) -> Result<Build<'a>, Halt> {
    let root = Root::read(alloc, b"/w")?;
    let listing = Listing::read(alloc, texts.listing, &root)?;
    let footprints = read_footprints(alloc, texts.footprints, &root)?;
    Ok(Build {
        input: input_of(texts.makefile),
        listing: Ok(listing),
        footprints: Ok(footprints),
    })
}

/// What is prepared of these texts.
pub(crate) fn prepare(alloc: Global, texts: &Texts<'_>) -> Result<Prepared, Halt> {
    let build = build_of(alloc, texts)?;
    match note_build(alloc, build, false) {
        Ok(noted) => Ok(noted.prepared),
        Err(halt) => Err(halt),
    }
}

/// Whether something was made, and this holds of it. It is generic, so that only here a large value is owned.
pub(crate) fn holds_of<T: Drop, E: Drop, F: FnOnce(Global, &T) -> bool>(
    alloc: Global,
    made: Result<T, E>,
    holds: F,
) -> bool
    requires { F.IsAlwaysCallable holds }
{
    match made {
        Ok(value) => holds(alloc, &value),
        Err(_) => false,
    }
}

/// Whether this holds of the build.
pub(crate) fn of_build<F: FnOnce(Global, &Prepared) -> bool>(alloc: Global, holds: F) -> bool
    requires { F.IsAlwaysCallable holds }
{
    holds_of(alloc, prepare(alloc, &TEXTS), holds)
}

/// The name of these bytes.
pub(crate) fn name_of(alloc: Global, text: &[u8]) -> Result<Name, AllocError> {
    Ok(Name::from_bytes(Vec::from_slice(alloc, text)?))
}

/// The store of one file of this name, which holds nothing since the time 1.
pub(crate) fn store_of(alloc: Global, name: &[u8]) -> Result<Store, AllocError> {
    let name = name_of(alloc, name)?;
    let mut store = Store::new(alloc);
    store.put(name, Contents::from_bytes(Vec::new(alloc)), 1)?;
    Ok(store)
}
