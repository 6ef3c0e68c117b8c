//! Footprints: what the recipe of each target reads and writes.
ghost use Rattle.std.specs.Prelude.{◌≡◌, [], IfOk, OnOk, fold, is_some};
ghost use Rattle.std.specs.BTreeSet.{insert_key};
ghost use Rattle.std.specs.List.Sorted.{IsStrictlySortedBy};
ghost use Rattle.mk_path.specs.Paths.{path_cmp};
ghost use Rattle.mk_foot.specs.Footprints.{AddsLine, AreFootprints, LeavesOthers, footprint_at};

use crate::line::FootprintLine;
use mk_name::name::Name;
use mk_path::path::Path;
use mk_text::root::Root;
use std::alloc::{AllocError, Global};
use std::collections::{BTreeMap, BTreeSet};
use std::marker::Model;

/// All that the recipe of one target reads and writes, each path once.
#[derive(Debug, Drop)]
pub(crate) struct Footprint {
    pub(crate) reads: BTreeSet<Path>,
    pub(crate) writes: BTreeSet<Path>,
}

impl Model for Footprint {
    ghost use Rattle.mk_jobs.specs.Shape.{AreNamed};
    ghost use Rattle.mk_foot.specs.Footprints as spec;

    ghost Value = { spec.Footprint };

    ghost view = { λ a. record { reads = a.reads.keys; writes = a.writes.keys } };

    ghost invariant = { λ a. AreNamed a.reads.keys × AreNamed a.writes.keys };
}

impl Footprint {
    /// An equal footprint. The only error is out of memory.
    fn copy(&self, alloc: Global) -> Result<Footprint, AllocError>
        ensures { IfOk result (λ copy. copy ≡ self.now) }
    {
        Ok(Footprint {
            reads: copied(alloc, &self.reads)?,
            writes: copied(alloc, &self.writes)?,
        })
    }
}

/// What the recipe of each target reads and writes, below one root. A target has a footprint where some line names it.
#[derive(Debug)]
pub struct Footprints {
    root: Root,
    by_target: BTreeMap<Name, Footprint>,
}

// By hand, so that it is proved once (docs/GATE.md, "What costs the prover").
impl Drop for Footprints {
    fn drop(self) {
        let Footprints {
            root: _,
            by_target: _,
        } = self;
    }
}

impl Model for Footprints {
    ghost use Rattle.mk_foot.specs.Footprints as spec;

    ghost Value = { spec.Footprints };

    ghost view = { λ a. record { root = a.root; by_target = a.by_target.entries } };
}

impl Footprints {
    /// The footprints of no target.
    pub(crate) fn new(alloc: Global, root: Root) -> Footprints
        ensures { AreFootprints root result [] }
    {
        Footprints {
            root,
            by_target: BTreeMap::new(alloc),
        }
    }

    /// The root that their paths were read below.
    pub fn root(&self) -> &Root
        ensures { result.now ≡ self.now.root }
    {
        &self.root
    }

    /// Equal footprints. The only error is out of memory.
    pub fn copy(&self, alloc: Global) -> Result<Footprints, AllocError>
        ensures { IfOk result (λ copy. copy ≡ self.now) }
    {
        Ok(Footprints {
            root: self.root.copy(alloc)?,
            by_target: copied_by_target(alloc, &self.by_target)?,
        })
    }

    /// That root, where nothing else of them is needed.
    pub(crate) fn into_root(self) -> Root
        ensures { result ≡ self.root }
    {
        let Footprints { root, by_target: _ } = self;
        root
    }

    /// Whether some line names a target.
    pub fn has(&self, target: &Name) -> bool
        ensures { result ≡ is_some (footprint_at self.now target.now) }
    {
        self.by_target.contains_key(target)
    }

    /// Takes out the footprint of a target, where some line names it. Those of all others stay.
    pub(crate) fn take(&mut self, target: &Name) -> Option<Footprint>
        ensures footprint { result ≡ footprint_at self.old target.now }
        ensures others { LeavesOthers self.old target.now self.new }
    {
        self.by_target.remove(target)
    }

    /// Unites what a line says with what the others of its target say. The only error is out of memory.
    pub(crate) fn add(&mut self, alloc: Global, line: FootprintLine) -> Result<(), AllocError>
        ensures { OnOk result (AddsLine self.old line self.new) }
    {
        let mut footprint = match self.by_target.remove(&line.target) {
            Some(footprint) => footprint,
            None => Footprint {
                reads: BTreeSet::new(alloc),
                writes: BTreeSet::new(alloc),
            },
        };
        add_paths(alloc, &mut footprint.reads, line.reads)?;
        add_paths(alloc, &mut footprint.writes, line.writes)?;
        self.by_target.insert(line.target, footprint)?;
        Ok(())
    }
}

/// An equal map. The only error is out of memory.
fn copied_by_target(
    alloc: Global,
    footprints: &BTreeMap<Name, Footprint>,
) -> Result<BTreeMap<Name, Footprint>, AllocError>
    ensures { IfOk result (λ copy. copy.entries ≡ footprints.now.entries) }
{
    let mut copy = BTreeMap::new(alloc);
    for (target, footprint) in footprints {
        copy.insert(target.copy(alloc)?, footprint.copy(alloc)?)?;
    }
    Ok(copy)
}

/// An equal set. The only error is out of memory.
fn copied(alloc: Global, paths: &BTreeSet<Path>) -> Result<BTreeSet<Path>, AllocError>
    ensures { IfOk result (λ copy. copy.keys ≡ paths.now.keys) }
{
    let list = copies_of(alloc, paths)?;
    collected(alloc, list)
}

/// Copies of the paths of a set, rising. The only error is out of memory.
fn copies_of(alloc: Global, paths: &BTreeSet<Path>) -> Result<Vec<Path>, AllocError>
    ensures paths { IfOk result (λ list. list.items ≡ paths.now.keys) }
    ensures rising { IfOk result (λ list. IsStrictlySortedBy path_cmp list.items) }
{
    let mut list = Vec::with_capacity(alloc, paths.len())?;
    for path in paths {
        list.push(path.copy(alloc)?)?;
    }
    Ok(list)
}

/// Adds the paths that are not there yet. The only error is out of memory.
fn add_paths(alloc: Global, paths: &mut BTreeSet<Path>, more: Vec<Path>) -> Result<(), AllocError>
    ensures { OnOk result (paths.new.keys ≡ fold (insert_key path_cmp) paths.old.keys more.items) }
{
    if paths.is_empty() {
        *paths = collected(alloc, more)?;
        return Ok(());
    }
    for path in more {
        paths.insert(path)?;
    }
    Ok(())
}

/// The paths as a set. They are put in order at once: that is faster than to put in one by one. The only error is out of
/// memory.
fn collected(alloc: Global, paths: Vec<Path>) -> Result<BTreeSet<Path>, AllocError>
    ensures { IfOk result (λ set. set.keys ≡ fold (insert_key path_cmp) [] paths.items) }
{
    paths.into_iter().collect(alloc)
}

/// The paths of a set, rising.
pub(crate) fn in_order(alloc: Global, paths: BTreeSet<Path>) -> Result<Vec<Path>, AllocError>
    ensures paths { IfOk result (λ list. list.items ≡ paths.keys) }
    ensures rising { IfOk result (λ list. IsStrictlySortedBy path_cmp list.items) }
{
    let mut list = Vec::with_capacity(alloc, paths.len())?;
    for path in paths {
        list.push(path)?;
    }
    Ok(list)
}
