//! Stores: the files that stand at names.
ghost use Rattle.std.specs.Prelude.{◌≡◌, ◌<◌, ◌↔◌, [], List, ℕ, IsTrue, IfOk, OnOk, OnErr, Some, None, option_map};
ghost use Rattle.std.specs.BTreeMap.{keys};
ghost use Rattle.std.specs.List.{All};
ghost use Rattle.std.specs.Map.Iter.{ShowsInOrder, deref_pair};
ghost use Rattle.mk_name.specs.Names.{has, same_name};
ghost use Rattle.mk_name.specs.Names as names;
ghost use Rattle.mk_sched.specs.Events.Act.{Put, Erase};
ghost use Rattle.mk_sched.specs.Events.{written};
ghost use Rattle.mk_sched.specs.Stored.{store_of, with_file, without_file, IsInOrder};
ghost use Rattle.mk_sched.specs.Stores as stores;
ghost use Rattle.mk_sched.specs.Stores.{AgreesWithListing};

use crate::contents::Contents;
use crate::file::File;
use crate::times::Times;
use mk_name::name::Name;
use mk_text::listing::Listing;
use std::alloc::{AllocError, Global};
use std::collections::BTreeMap;
use std::collections::btree_map::Iter;
use std::marker::Model;

/// The files that stand at names, in the byte order of their names.
#[derive(Debug, Drop)]
pub struct Store {
    files: BTreeMap<Name, File>,
    times: Times,
}

impl Model for Store {
    ghost use Rattle.mk_sched.specs.Stored.{IsStored, StoredFiles};

    ghost Value = { StoredFiles };

    ghost view = { λ a. a.files.entries };

    ghost invariant = { λ a. IsStored a.files.entries a.times };
}

impl Store {
    /// No files.
    pub fn new(alloc: Global) -> Store
        ensures { result ≡ [] }
    {
        Store {
            files: BTreeMap::new(alloc),
            times: Times::new(alloc),
        }
    }

    /// The file that stands at a name, if there is one.
    pub fn file(&self, name: &Name) -> Option<&File>
        ensures { option_map (λ file. file.now) result ≡ store_of self.now name.now }
    {
        self.files.get(name)
    }

    /// The names in byte order, each with its file.
    pub fn files(&self) -> Iter<'_, Name, File>
        ensures rest { result ≡ self.now }
        ensures runs { ShowsInOrder (deref_pair {K = names.Name} {X = stores.File}) }
        ensures in_order { IsInOrder self.now }
    {
        self.files.iter()
    }

    /// Puts a file at a name, in place of the one that stands there. The only error is out of memory, and the store is
    /// then as it was.
    pub fn put(&mut self, name: Name, contents: Contents, time: u64) -> Result<(), AllocError>
        ensures ok { OnOk result ((x : names.Name) →
            store_of self.new x ≡ written (Put name contents time) x (store_of self.old x)) }
        ensures files { OnOk result
            (self.new ≡ with_file self.old name (record { bytes = contents; time = time })) }
        ensures err { OnErr result (self.new ≡ self.old) }
    {
        // A time is counted at most as often as there are files, and so few that the count fits.
        let _files = self.files.len();
        self.times.add(time)?;
        match self.files.insert(name, File::new(contents, time)) {
            Ok(None) => Ok(()),
            Ok(Some(file)) => {
                self.times.take(file.time());
                Ok(())
            }
            Err(_) => {
                self.times.take(time);
                Err(AllocError)
            }
        }
    }

    /// Erases the file at a name, if there is one.
    pub fn erase(&mut self, name: &Name)
        ensures stands { (x : names.Name) →
            store_of self.new x ≡ written (Erase name.now) x (store_of self.old x) }
        ensures files { self.new ≡ without_file self.old name.now }
    {
        if let Some(file) = self.files.remove(name) {
            self.times.take(file.time());
        }
    }

    /// Whether each file was written before this time.
    pub fn is_before(&self, time: u64) -> bool
        ensures { IsTrue result ↔ ((x : names.Name) (file : stores.File)
            → store_of self.now x ≡ Some file → file.time < time) }
    {
        self.times.are_before(time)
    }

    /// Whether the names of the files are exactly those of a listing.
    pub fn agrees(&self, listing: &Listing) -> bool
        ensures { IsTrue result ↔ AgreesWithListing (has same_name listing.now) (store_of self.now) }
    {
        listing.are_all_in(&self.files) && are_listed(&self.files, listing)
    }
}

/// Whether all names are listed.
fn are_listed(files: &BTreeMap<Name, File>, listing: &Listing) -> bool
    ensures { IsTrue result ↔ All (λ name. IsTrue (has same_name listing.now name)) (keys files.now) }
{
    for name in files.keys() {
        if !listing.contains(name) {
            return false;
        }
    }
    true
}

/// An equal store. The only error is out of memory.
pub fn copy_store(alloc: Global, store: &Store) -> Result<Store, AllocError>
    ensures { IfOk result (λ copy. copy ≡ store.now) }
{
    let mut copy = Store::new(alloc);
    for (name, file) in store.files() {
        copy.put(name.copy(alloc)?, file.contents().copy(alloc)?, file.time())?;
    }
    Ok(copy)
}
