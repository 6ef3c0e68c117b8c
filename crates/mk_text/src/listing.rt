//! The listing: the files that exist, one path a line.
ghost use Rattle.std.specs.Prelude.{◌≡◌, ◌↔◌, ◌∷◌, [], List, ℕ, Ok, OnErr, OnOk, IfErr, IfOk, IsSome, IsTrue};
ghost use Rattle.std.specs.BTreeMap.{get};
ghost use Rattle.std.specs.List.{All};
ghost use Rattle.std.specs.Cmp.Lexicographic.{slice_cmp};
ghost use Rattle.std.specs.Ordering.{nat_cmp};
ghost use Rattle.mk_name.specs.Gives.{Gives, Halts};
ghost use Rattle.mk_text.specs.Listing.{in_order, listing_of, line_names, put_among, with_names};
ghost use Rattle.mk_name.specs.Names.{has, same_name};

use crate::list_reader::ListReader;
use crate::root::Root;
use crate::spelling::plain_path;
use mk_name::fault::{Halt, Source};
use mk_name::name::Name;
use std::alloc::{AllocError, Global};
use std::collections::{BTreeMap, BTreeSet};
use std::marker::Model;

/// The names of the files that exist, each once.
#[derive(Debug)]
pub struct Listing {
    names: BTreeSet<Name>,
}

// By hand, so that it is proved once (docs/GATE.md, "What costs the prover").
impl Drop for Listing {
    fn drop(self) {
        let Listing { names: _ } = self;
    }
}

impl Model for Listing {
    ghost Value = { List (List ℕ) };

    ghost view = { λ a. a.names.keys };
}

impl Listing {
    /// Reads a listing, one path a line (profile). Only a line of no bytes is skipped, and the last
    /// line needs no newline. Names that stand there more than once count once.
    ///
    /// The first line that `plain_path` refuses is `BadName` in the listing, at that line from 1,
    /// without names. A line past the greatest `u64` has that place.
    pub fn read(alloc: Global, text: &[u8], root: &Root) -> Result<Listing, Halt>
        ensures { Gives result (listing_of root.now text.now) }
    {
        let mut reader = ListReader::new(alloc, root.copy(alloc)?);
        // `finish` answers the same fault.
        let _fed = reader.feed(text);
        reader.finish()
    }

    /// The listing of these names.
    pub(crate) fn of_names(names: BTreeSet<Name>) -> Listing
        ensures { result ≡ names.keys }
    {
        Listing { names }
    }

    /// An equal listing. The only error is out of memory.
    pub fn copy(&self, alloc: Global) -> Result<Listing, AllocError>
        ensures { IfOk result (λ copy. copy ≡ self.now) }
    {
        let mut names = BTreeSet::new(alloc);
        for name in &self.names {
            names.insert(name.copy(alloc)?)?;
        }
        Ok(Listing { names })
    }

    /// Adds the name of a file, where it is not there yet. The only error is out of memory, and then the listing stays as it was.
    pub fn add(&mut self, name: Name) -> Result<(), AllocError>
        ensures added { OnOk result (self.new ≡ put_among self.old (name ∷ [])) }
        ensures same { OnErr result (self.new ≡ self.old) }
    {
        self.names.insert(name)?;
        Ok(())
    }

    /// Whether the file exists.
    pub fn contains(&self, name: &Name) -> bool
        ensures { result ≡ has same_name self.now name.now }
    {
        self.names.contains(name)
    }

    /// The names of the files that exist, rising byte by byte.
    pub fn names(&self) -> &BTreeSet<Name>
        ensures { result.now.keys ≡ self.now }
    {
        &self.names
    }

    /// Whether each of the files that exist is a key of the map.
    pub fn are_all_in<V>(&self, map: &BTreeMap<Name, V>) -> bool
        ensures { IsTrue result ↔ All (λ name. IsSome (get (slice_cmp nat_cmp) map.now name)) self.now }
    {
        for name in &self.names {
            if !map.contains_key(name) {
                return false;
            }
        }
        true
    }
}

/// Puts the name of a line among the others.
pub(crate) fn add_line(
    names: &mut BTreeSet<Name>,
    alloc: Global,
    line: &[u8],
    place: u64,
    root: &Root,
) -> Result<(), Halt>
    ensures ok { let names_of_line = line_names root.now place line.now in
        OnOk result (with_names names.old.keys names_of_line ≡ Ok names.new.keys) }
    ensures err { IfErr result (λ halt. Halts halt (line_names root.now place line.now)) }
{
    if line.is_empty() {
        return Ok(());
    }
    match plain_path(alloc, line, root) {
        Ok(name) => {
            names.insert(name)?;
            Ok(())
        }
        Err(halt) => Err(halt.at(Source::Listing, place)),
    }
}

/// The order of names and the repeats among them change nothing: the same names are listed.
pub fn listed_in_any_order()
    ensures { (names : List (List ℕ)) (name : List ℕ)
        → has same_name (in_order names) name ≡ has same_name names name }
{}
