//! Listings that come in pieces.
ghost use Rattle.std.specs.Prelude.{◌≡◌};
ghost use Rattle.mk_name.specs.declared.fault.Source.TheVariants as sources;
ghost use Rattle.mk_text.specs.ListReader.{HasListed, kept_length, listed};

use crate::limits::MAX_PATH_LEN;
use crate::line_feed::LineFeed;
use crate::line_sink::{LineSink, Stop};
use crate::listing::{Listing, add_line};
use crate::root::Root;
use mk_name::fault::{Halt, Kind, Source};
use mk_name::name::Name;
use std::alloc::{AllocError, Global};
use std::collections::BTreeSet;
use std::marker::Model;

/// Reads a listing that comes in pieces, whatever the cuts between them, as `Listing::read` reads one that lies whole.
pub type ListReader = LineFeed<ListSink>;

/// The names of the lines of a listing.
#[derive(Debug, Drop)]
pub struct ListSink {
    root: Root,
    names: BTreeSet<Name>,
}

impl Model for ListSink {
    ghost use Rattle.mk_text.specs.ListReader as reader;

    ghost Value = { reader.Listed };

    ghost view = { λ a. record { root = a.root; names = a.names.keys } };
}

impl LineSink for ListSink {
    type Value = Listing;

    /// One more than a path may have, so that a longer line is refused all the same.
    const KEPT: usize = MAX_PATH_LEN + 1;

    ghost KEPT = { kept_length };

    ghost source = { sources.Listing };

    ghost says = { λ root lines names. listed root lines ≡ names };

    ghost has = { HasListed };

    fn begin(alloc: Global, root: Root) -> ListSink {
        ListSink {
            root,
            names: BTreeSet::new(alloc),
        }
    }

    fn source() -> Source {
        Source::Listing
    }

    fn add(&mut self, alloc: Global, line: &[u8], place: u64) -> Result<(), Stop> {
        match add_line(&mut self.names, alloc, line, place, &self.root) {
            Ok(()) => Ok(()),
            Err(Halt::Memory) => Err(Stop::Memory),
            Err(Halt::Fault(_)) => Err(Stop::Fault(Kind::BadName, place)),
        }
    }

    fn finish(self) -> Listing {
        Listing::of_names(self.names)
    }
}
