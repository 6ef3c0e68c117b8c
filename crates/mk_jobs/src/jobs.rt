//! Jobs: a plan, and what each of its recipes may read and write.
ghost use Rattle.std.specs.Prelude.{ℕ, ◌≡◌, ◌<◌, ◌≤◌, ◌*◌, ◌↔◌, ◌⊎◌, [], All, Contains, IfErr, IfOk, IfSome, IsSome, IsTrue, Some, false, get_or, length, true};
ghost use Rattle.std.specs.List.Sorted.{IsNonDecreasing, IsPermutation, IsStrictlyIncreasing};
ghost use Rattle.mk_index.specs.Bits.{HasBit};
ghost use Rattle.mk_index.specs.Holders.{row_limit};
ghost use Rattle.mk_index.specs.Uses.{AreAllPlaces, IsLeastOverlap, IsPlaceOf, Reaches, has_over, path_of};
ghost use Rattle.mk_jobs.specs.Numbered.{number_of};
ghost use Rattle.mk_jobs.specs.Plan.{names_of, node_limit};
ghost use Rattle.mk_jobs.specs.Jobs.{Clash, IsNumberOf, IsPrerequisite, IsValid, is_listed, is_live, is_phony, maker_of, may_read, may_write, name_of, node_count, prerequisites_of, reads_of, writes_of};
ghost use Rattle.mk_jobs.specs.Reaching.{uses_of};
ghost use Rattle.mk_jobs.specs.Rows.{with_rows};
ghost use Rattle.mk_jobs.specs.Shape.{IsRising, IsWellFormed};

use crate::maker::Maker;
use crate::needs::needs_of;
use crate::plan::Plan;
use crate::recipe::is_live;
use mk_index::index::{Index, Place};
use mk_index::table::Table;
use mk_name::name::Name;
use mk_path::covering::is_covered;
use mk_path::path::Path;
use mk_text::root::Root;
use std::alloc::{AllocError, Global};
use std::marker::Model;

/// A plan, the root of its names, and for each node the paths that its footprints read and write. A node's number is its
/// place in serial order.
#[derive(Debug)]
pub struct Jobs {
    plan: Plan,
    root: Root,
    reads: Vec<Vec<Path>>,
    writes: Vec<Vec<Path>>,
    /// What they use, by numbers.
    index: Index,
    /// The prerequisites of each node, rising.
    needs: Table,
}

// By hand, so that it is proved once (docs/GATE.md, "What costs the prover").
impl Drop for Jobs {
    fn drop(self) {
        let Jobs {
            plan: _,
            root: _,
            reads: _,
            writes: _,
            index: _,
            needs: _,
        } = self;
    }
}

impl Model for Jobs {
    ghost use Rattle.std.specs.Prelude.{map};
    ghost use Rattle.mk_jobs.specs.Jobs as spec;
    ghost use Rattle.mk_jobs.specs.Kept.{IsKept};

    ghost Value = { spec.Jobs };

    ghost view = { λ a. record {
      plan = a.plan;
      root = a.root;
      reads = map (λ row. row.items) a.reads.items;
      writes = map (λ row. row.items) a.writes.items;
    } };

    ghost invariant = { λ a. IsKept (record {
      plan = a.plan;
      root = a.root;
      reads = map (λ row. row.items) a.reads.items;
      writes = map (λ row. row.items) a.writes.items;
    }) a.index a.needs };
}

impl Jobs {
    /// The jobs of a plan with a row of paths for each node: what it reads, and what it writes. Relative names stand below
    /// this root. The only error is out of memory, and then the plan comes back as it was.
    pub fn new(
        alloc: Global,
        plan: Plan,
        root: Root,
        reads: Vec<Vec<Path>>,
        writes: Vec<Vec<Path>>,
    ) -> Result<Jobs, Plan>
        requires { IsWellFormed (with_rows plan root reads.items writes.items) }
        ensures jobs { IfOk result (λ jobs. jobs ≡ with_rows plan root reads.items writes.items) }
        ensures back { IfErr result (λ back. back ≡ plan) }
    {
        match (
            needs_of(alloc, &plan),
            Index::new(alloc, &root, reads.as_slice(), writes.as_slice()),
        ) {
            (Ok(needs), Ok(index)) => Ok(Jobs {
                plan,
                root,
                reads,
                writes,
                index,
                needs,
            }),
            _ => Err(plan),
        }
    }

    /// How many nodes there are, at most `NODE_LIMIT`; they have at most `EDGE_LIMIT` prerequisites together.
    /// Prerequisites have smaller numbers than what needs them, the name of each path has a byte, and no recipe writes
    /// the name of a node except its own.
    pub fn count(&self) -> u32
        ensures count { result ≡ node_count self.now }
        ensures few { result ≤ node_limit }
        ensures shape { IsWellFormed self.now }
        ensures valid { IsValid self.now }
    {
        self.plan.count()
    }

    /// The name of a node, whose number it gives back. Its number must be below the count of nodes.
    pub fn name(&self, n: u32) -> &Name
        requires { n < node_count self.now }
        ensures name { result.now ≡ name_of self.now n }
        ensures number { number_of (names_of self.now.plan.nodes) (name_of self.now n) ≡ Some n }
    {
        self.plan.name(n)
    }

    /// The number of the node with this name, if there is one.
    pub fn number(&self, name: &Name) -> Option<u32>
        ensures number { IsNumberOf self.now name.now result }
        ensures place { result ≡ number_of (names_of self.now.plan.nodes) name.now }
    {
        self.plan.number(name)
    }

    /// The numbers of what a node needs, in the rule's order: each is below the node's own. Its number must be below
    /// the count of nodes.
    pub fn prerequisites(&self, n: u32) -> &[u32]
        requires { n < node_count self.now }
        ensures { result.now ≡ prerequisites_of self.now n }
    {
        self.plan.prerequisites(n)
    }

    /// The numbers of what a node needs, each as often as its rule names it, rising. Its number must be below the count of
    /// nodes.
    pub fn needs(&self, n: u32) -> &[u32]
        requires { n < node_count self.now }
        ensures rising { IsNonDecreasing result.now }
        ensures all { IsPermutation (prerequisites_of self.now n) result.now }
    {
        self.needs.row(n as usize)
    }

    /// Whether node n needs node p at once. n must be below the count of nodes.
    pub fn is_prerequisite(&self, p: u32, n: u32) -> bool
        requires { n < node_count self.now }
        ensures { IsTrue result ↔ IsPrerequisite self.now p n }
    {
        self.needs(n).binary_search(&p).is_ok()
    }

    /// What makes a node's name. Its number must be below the count of nodes.
    pub fn maker(&self, n: u32) -> Maker
        requires { n < node_count self.now }
        ensures { result ≡ maker_of self.now n }
    {
        self.plan.maker(n)
    }

    /// Whether a node is phony. Its number must be below the count of nodes.
    pub fn is_phony(&self, n: u32) -> bool
        requires { n < node_count self.now }
        ensures { result ≡ is_phony self.now n }
    {
        self.plan.is_phony(n)
    }

    /// Whether the listing has a node's name. Its number must be below the count of nodes.
    pub fn is_listed(&self, n: u32) -> bool
        requires { n < node_count self.now }
        ensures { result ≡ is_listed self.now n }
    {
        self.plan.is_listed(n)
    }

    /// How often `.WAIT` was used.
    pub fn wait_uses(&self) -> u64
        ensures { result ≡ self.now.plan.wait_uses }
    {
        self.plan.wait_uses()
    }

    /// Whether a node has a recipe that can run (profile): something makes it, and it is not idle, which it is where it
    /// is listed, not phony and needs nothing. Its number must be below the count of nodes.
    pub fn is_live(&self, n: u32) -> bool
        requires { n < node_count self.now }
        ensures { result ≡ is_live self.now n }
    {
        is_live(&self.plan, n)
    }

    /// The root that relative names stand below.
    pub fn root(&self) -> &Root
        ensures { result.now ≡ self.now.root }
    {
        &self.root
    }

    /// The paths that a node's recipe reads, rising; none where it is not live. Its number must be below the count of
    /// nodes.
    pub fn reads(&self, n: u32) -> &[Path]
        requires { n < node_count self.now }
        ensures reads { result.now ≡ reads_of self.now n }
        ensures rising { IsRising result.now }
    {
        let row = &self.reads[n as usize];
        row.as_slice()
    }

    /// The paths that a node's recipe writes, rising; none where it is not live. Its number must be below the count of
    /// nodes.
    pub fn writes(&self, n: u32) -> &[Path]
        requires { n < node_count self.now }
        ensures writes { result.now ≡ writes_of self.now n }
        ensures rising { IsRising result.now }
    {
        let row = &self.writes[n as usize];
        row.as_slice()
    }

    /// Whether a node may read a name (profile): it is live, and a path that it reads covers the name. Its number must be
    /// below the count of nodes.
    pub fn may_read(&self, n: u32, name: &Name) -> bool
        requires { n < node_count self.now }
        ensures { result ≡ may_read self.now n name.now }
    {
        self.is_live(n) && is_covered(self.root(), self.reads(n), name)
    }

    /// Whether a node may write a name (profile): it is live, and a path that it writes covers the name. Its number must
    /// be below the count of nodes.
    pub fn may_write(&self, n: u32, name: &Name) -> bool
        requires { n < node_count self.now }
        ensures { result ≡ may_write self.now n name.now }
    {
        self.is_live(n) && is_covered(self.root(), self.writes(n), name)
    }

    /// Sets in a row the bits of the nodes that reach node b: those that have a path which is one of b's or a tree over it,
    /// where one of the two is written. b itself may be one of them, and no other bit changes. b must be below the count of
    /// nodes, and the row must have a word for each 64 nodes. Two different nodes clash just where one reaches the other.
    pub fn mark_reaching(&self, b: u32, row: &mut [u64])
        requires node { b < node_count self.now }
        requires room { node_count self.now ≤ 64 * length row.old }
        ensures { (a : ℕ) → HasBit row.new a ↔ (HasBit row.old a ⊎ Reaches (uses_of self.now) a b) }
    {
        self.index.mark_reaching(b, row);
    }

    /// The least path on which two nodes clash (profile): the overlap of a path of each, of which one is written; the overlap
    /// of two paths is the one that the other is or lies over. None where they do not clash. Both numbers must be below the
    /// count of nodes.
    pub fn clash(&self, a: u32, b: u32) -> Option<&Path>
        requires first { a < node_count self.now }
        requires second { b < node_count self.now }
        ensures least { IfSome result (λ path. IsLeastOverlap (uses_of self.now) a b path.now) }
        ensures clash { IsSome result ↔ Clash self.now a b }
    {
        if a == b {
            return None;
        }
        match self.index.overlap(a, b) {
            Some(place) => Some(self.path(place)),
            None => None,
        }
    }

    /// For each path that nodes read or write a place where it stands, in order of the paths. The only error is out of memory.
    pub fn all_places(&self, alloc: Global) -> Result<Vec<Place>, AllocError>
        ensures few { IfOk result (λ places. length places.items < row_limit) }
        ensures nodes { IfOk result (λ places. All (λ place. place.node < node_count self.now) places.items) }
        ensures all { IfOk result (λ places. AreAllPlaces (uses_of self.now) places.items) }
    {
        self.index.all_places(alloc)
    }

    /// The nodes that write the path at a place or a tree over it, or those that read one, rising. The only error is out of
    /// memory.
    pub fn users_over(
        &self,
        alloc: Global,
        place: Place,
        written: bool,
    ) -> Result<Vec<u32>, AllocError>
        requires node { place.node < node_count self.now }
        requires within { IsPlaceOf (uses_of self.now) place }
        ensures rise { IfOk result (λ nodes. IsStrictlyIncreasing nodes.items) }
        ensures over { IfOk result (λ nodes. (n : ℕ)
            → Contains nodes.items n ↔ (has_over (uses_of self.now) n written (path_of (uses_of self.now) place) ≡ true)) }
    {
        self.index.users_over(alloc, place, written)
    }

    /// The path at a place.
    pub fn path(&self, place: Place) -> &Path
        requires node { place.node < node_count self.now }
        requires within { IsPlaceOf (uses_of self.now) place }
        ensures { result.now ≡ path_of (uses_of self.now) place }
    {
        if place.written {
            return path_in(self.writes(place.node), place.place);
        }
        path_in(self.reads(place.node), place.place)
    }
}

/// The path at a place of some.
fn path_in(paths: &[Path], place: usize) -> &Path
    requires { place < length paths.now }
    ensures { result.now ≡ get_or paths.now place (record { name = []; tree = false }) }
{
    &paths[place]
}
