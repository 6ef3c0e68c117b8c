//! An index over rows of paths: who reaches whom, and where.
ghost use Rattle.std.specs.Prelude.{Bool, ℕ, ◌≡◌, ◌<◌, ◌≤◌, ◌+◌, ◌*◌, ◌↔◌, ◌⊎◌, ◌∷◌, All, Contains, IfNone, IfOk, IfSome, List, OnOk, length, slice_index, true};
ghost use Rattle.std.specs.List.Sorted.{IsStrictlyIncreasing};
ghost use Rattle.mk_index.specs.Bits.{HasBit};
ghost use Rattle.mk_index.specs.Holders.{row_limit};
ghost use Rattle.mk_index.specs.Index.{AreHolders, IsIndexed, IsNumberRow, IsWhole, holders_of, numbers_of};
ghost use Rattle.mk_index.specs.Meets.{AreBelow, Facing, IsFront, IsLeastMet, Stands, facing};
ghost use Rattle.mk_index.specs.Placed.{ArePlaced, IsPlaced, number_at};
ghost use Rattle.mk_index.specs.Ups.{number_count};
ghost use Rattle.mk_index.specs.Uses.{AreAllPlaces, AreRising, IsLeastOverlap, IsOverlap, Reaches, Uses, has_over, path_of, paths_of, uses_of};

use crate::holders::holders;
use crate::marks::mark_over;
use crate::meets::first_met;
use crate::nearest::ways_up;
use crate::over::holders_over;
use crate::places::number_rows;
use crate::table::Table;
use crate::ups::Ups;
use mk_path::path::Path;
use mk_text::root::Root;
use std::alloc::{AllocError, Global};
use std::marker::Model;

/// A place among the paths of a node: of those that it writes, or of those that it reads, counted from 0 on.
#[derive(Clone, Copy, Debug, PartialEq, Eq)]
pub struct Place {
    pub node: u32,
    pub written: bool,
    pub place: usize,
}

/// The number of a path, and a place where the path stands.
#[derive(Clone, Copy, Debug)]
struct Found {
    number: u32,
    place: Place,
}

/// What nodes read and write, by the numbers of their paths. Made once, it answers which nodes reach a node, and where two
/// nodes overlap, without a look at any path.
#[derive(Debug)]
pub struct Index {
    reads: Table,
    writes: Table,
    ups: Ups,
    writers: Table,
    readers: Table,
}

// By hand, so that it is proved once (docs/GATE.md, "What costs the prover").
impl Drop for Index {
    fn drop(self) {
        let Index {
            reads: _,
            writes: _,
            ups: _,
            writers: _,
            readers: _,
        } = self;
    }
}

impl Model for Index {
    ghost use Rattle.mk_index.specs.Index as spec;
    ghost use Rattle.mk_index.specs.Index.{IsWhole};

    ghost Value = { spec.Index };

    ghost view = { λ a. record { reads = a.reads; writes = a.writes; ups = a.ups; writers = a.writers; readers = a.readers } };

    ghost invariant = { λ a. IsWhole (record { reads = a.reads; writes = a.writes; ups = a.ups; writers = a.writers; readers = a.readers }) };
}

impl Index {
    /// The index of nodes with a row of paths for each: what it reads, and what it writes, rising by path. The root is that
    /// of relative names. The only error is out of memory, also where there are more than 4,294,967,294
    /// paths, or one of so many bytes.
    pub fn new(
        alloc: Global,
        root: &Root,
        reads: &[Vec<Path>],
        writes: &[Vec<Path>],
    ) -> Result<Index, AllocError>
        requires same { length writes.now ≡ length reads.now }
        requires few { length reads.now ≤ row_limit }
        requires rise { AreRising (uses_of root.now reads.now writes.now) }
        ensures count { IfOk result (λ index. length index.reads ≡ length reads.now) }
        ensures indexed { IfOk result (λ index. IsIndexed (uses_of root.now reads.now writes.now) index) }
    {
        let numbered = number_rows(alloc, reads, writes)?;
        let ups = ways_up(alloc, root, &numbered.paths)?;
        let writers = holders(alloc, &numbered.writes, numbered.paths.len())?;
        let readers = holders(alloc, &numbered.reads, numbered.paths.len())?;
        Ok(Index {
            reads: numbered.reads,
            writes: numbered.writes,
            ups,
            writers,
            readers,
        })
    }

    /// How many nodes there are.
    pub fn count(&self) -> usize
        ensures count { result ≡ length self.now.reads }
        ensures whole { IsWhole self.now }
    {
        self.reads.count()
    }

    /// Sets the bits of the nodes that reach node b: those that have a path which is one of b's or a tree over it, where one
    /// of the two is written. b itself may be one of them. All other bits stay. b must be below the count of nodes, and the
    /// row must have a word for each 64 nodes.
    pub fn mark_reaching(&self, b: u32, row: &mut [u64])
        requires node { b < length self.now.reads }
        requires room { length self.now.reads ≤ 64 * length row.old }
        ensures marked { (uses : Uses) (a : ℕ) → IsIndexed uses self.now → HasBit row.new a ↔ (HasBit row.old a ⊎ Reaches uses a b) }
    {
        let reads = self.reads.row(b as usize);
        let writes = self.writes.row(b as usize);
        mark_over(&self.ups, &self.writers, reads, row);
        mark_over(&self.ups, &self.writers, writes, row);
        mark_over(&self.ups, &self.readers, writes, row);
    }

    /// For each path that nodes read or write a place where it stands, in order of the paths. The only error is out of memory.
    pub fn all_places(&self, alloc: Global) -> Result<Vec<Place>, AllocError>
        ensures few { IfOk result (λ places. length places.items < row_limit) }
        ensures nodes { IfOk result (λ places. All (λ place. place.node < length self.now.reads) places.items) }
        ensures all { IfOk result (λ places. (uses : Uses) → IsIndexed uses self.now → AreAllPlaces uses places.items) }
    {
        let mut places = Vec::new(alloc);
        for t in 0..self.writers.count() as u32 {
            self.add_place(&mut places, t)?;
        }
        Ok(places)
    }

    /// Adds a place of the path of a number, if a node reads or writes it. The only error is out of memory.
    fn add_place(&self, places: &mut Vec<Place>, t: u32) -> Result<(), AllocError>
        requires number { t < number_count self.now.ups }
        requires before { ArePlaced self.now places.old.items t }
        ensures { OnOk result (ArePlaced self.now places.new.items (t + 1)) }
    {
        if let Some(place) = self.place(t) {
            places.push(place)?;
        }
        Ok(())
    }

    /// A place of the path of a number, if a node reads or writes it.
    fn place(&self, t: u32) -> Option<Place>
        requires { t < number_count self.now.ups }
        ensures some { IfSome result (λ place. IsPlaced self.now place × (number_at self.now place ≡ t)) }
        ensures none { IfNone result ((n : ℕ) (written : Bool) → ¬ Contains (numbers_of self.now n written) t) }
    {
        match self.place_among(t, true) {
            Some(place) => Some(place),
            None => self.place_among(t, false),
        }
    }

    /// A place of the path of a number among what nodes write, or read, if there is one.
    fn place_among(&self, t: u32, written: bool) -> Option<Place>
        requires { t < number_count self.now.ups }
        ensures some { IfSome result (λ place. IsPlaced self.now place × (number_at self.now place ≡ t)) }
        ensures none { IfNone result ((n : ℕ) → ¬ Contains (numbers_of self.now n written) t) }
    {
        match self.holders(written).row(t as usize).first() {
            Some(&node) => Some(Place {
                node,
                written,
                place: place_of(self.numbers(node, written), t),
            }),
            None => None,
        }
    }

    /// For each number the nodes that write its path, or those that read it.
    fn holders(&self, written: bool) -> &Table
        ensures is { result.now ≡ holders_of self.now written }
        ensures held { AreHolders self.now.ups (length self.now.reads) result.now }
        ensures whole { IsWhole self.now }
    {
        if written {
            &self.writers
        } else {
            &self.readers
        }
    }

    /// The nodes that write the path at a place or a tree over it, or those that read one, rising. It takes the sum of how many
    /// hold each of these paths. The only error is out of memory.
    pub fn users_over(
        &self,
        alloc: Global,
        place: Place,
        written: bool,
    ) -> Result<Vec<u32>, AllocError>
        requires { IsPlaced self.now place }
        ensures rise { IfOk result (λ nodes. IsStrictlyIncreasing nodes.items) }
        ensures over { IfOk result (λ nodes. (uses : Uses) (n : ℕ) → IsIndexed uses self.now
            → Contains nodes.items n ↔ (has_over uses n written (path_of uses place) ≡ true)) }
    {
        let number = self.numbers(place.node, place.written)[place.place];
        let mut nodes = holders_over(alloc, &self.ups, self.holders(written), number)?;
        nodes.sort_unstable();
        nodes.dedup();
        Ok(nodes)
    }

    /// Where two nodes overlap first: the place of the least path which is the overlap of a path of a and one of b, of which
    /// one is written; the overlap of two paths is the one that the other is over. None where they do not overlap. Both must
    /// be below the count of nodes.
    pub fn overlap(&self, a: u32, b: u32) -> Option<Place>
        requires first { a < length self.now.reads }
        requires second { b < length self.now.reads }
        ensures node { IfSome result (λ place. place.node < length self.now.reads) }
        ensures within { IfSome result (λ place. (uses : Uses) → IsIndexed uses self.now → place.place < length (paths_of uses place.node place.written)) }
        ensures some { IfSome result (λ place. (uses : Uses) → IsIndexed uses self.now → IsLeastOverlap uses a b (path_of uses place)) }
        ensures none { IfNone result ((uses : Uses) (o : Path) → IsIndexed uses self.now → ¬ IsOverlap uses a b o) }
    {
        let count = self.count();
        prove!((a as usize) < count && (b as usize) < count);
        let best = self.under(None, a, b);
        match self.under(best, b, a) {
            Some(found) => Some(found.place),
            None => None,
        }
    }

    /// The least of the best so far and of the paths of b that a reaches.
    fn under(&self, best: Option<Found>, a: u32, b: u32) -> Option<Found>
        requires first { a < length self.now.reads }
        requires second { b < length self.now.reads }
        requires stands { IfSome best (Stands self.now) }
        ensures stands { IfSome result (Stands self.now) }
        ensures least { (pairs : List Facing) → IsLeastMet self.now.ups pairs best → IsLeastMet self.now.ups (facing self.now a b pairs) result }
    {
        let best = self.lesser(best, b, true, self.numbers(a, true));
        let best = self.lesser(best, b, true, self.numbers(a, false));
        self.lesser(best, b, false, self.numbers(a, true))
    }

    /// The least of the best so far and of the numbers of what a node writes, or reads, that one of theirs stands above.
    fn lesser(&self, best: Option<Found>, node: u32, written: bool, theirs: &[u32]) -> Option<Found>
        requires node { node < length self.now.reads }
        requires rise { IsStrictlyIncreasing theirs.now }
        requires stands { IfSome best (Stands self.now) }
        ensures stands { IfSome result (Stands self.now) }
        ensures least { (pairs : List Facing) → IsLeastMet self.now.ups pairs best
            → IsLeastMet self.now.ups (record { mine = numbers_of self.now node written; theirs = theirs.now } ∷ pairs) result }
    {
        let mine = before(self.numbers(node, written), best);
        match first_met(&self.ups, mine, theirs) {
            Some(place) => Some(Found {
                number: mine[place],
                place: Place {
                    node,
                    written,
                    place,
                },
            }),
            None => best,
        }
    }

    /// The numbers of what a node writes, or reads.
    fn numbers(&self, node: u32, written: bool) -> &[u32]
        requires { node < length self.now.reads }
        ensures numbers { result.now ≡ numbers_of self.now node written }
        ensures row { IsNumberRow self.now.ups result.now }
    {
        if written {
            self.writes.row(node as usize)
        } else {
            self.reads.row(node as usize)
        }
    }
}

/// The front of some numbers that rise: those up to the best so far, if there is one.
fn before(numbers: &[u32], best: Option<Found>) -> &[u32]
    requires { IsStrictlyIncreasing numbers.now }
    ensures { IsFront numbers.now best result.now }
{
    match best {
        Some(found) => &numbers[..place_of(numbers, found.number)],
        None => numbers,
    }
}

/// Where a number stands among others that rise, or would stand.
fn place_of(numbers: &[u32], n: u32) -> usize
    requires { IsStrictlyIncreasing numbers.now }
    ensures within { result ≤ length numbers.now }
    ensures below { AreBelow numbers.now result n }
    ensures rest { (k : ℕ) → result ≤ k → k < length numbers.now → n ≤ slice_index numbers.now k }
{
    match numbers.binary_search(&n) {
        Ok(place) => place,
        Err(place) => place,
    }
}
