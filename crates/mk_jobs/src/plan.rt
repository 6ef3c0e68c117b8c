//! The plan: all that some goals need, in serial order.
ghost use Rattle.std.specs.Prelude.{◌≡◌, ◌<◌, ◌≤◌, ℕ, get_or, length, nat_eq, IsTrue, IfOk};
ghost use Rattle.std.specs.Hash.DefaultHasher as sip;
ghost use Rattle.sha2.specs.Sha256.{sha256};
ghost use Rattle.mk_name.specs.Names.{has, same_name, IsDistinct};
ghost use Rattle.mk_table.specs.Hashing.{key_text};
ghost use Rattle.mk_jobs.specs.Numbered.{number_of};
ghost use Rattle.mk_jobs.specs.Plan.{AreFoundBy, HaveNames, NeedsStandBefore, edge_count, edge_limit, names_of, node_at, node_limit, with_names};

use crate::maker::Maker;
use crate::numbering::Numbering;
use indexmap::IndexSet;
use mk_name::name::Name;
use mk_table::hasher::{NameHasher, feed_name};
use sha2::{Digest, Sha256};
use std::alloc::{AllocError, Global};
use std::marker::Model;

/// The most nodes that a plan has (profile).
pub const NODE_LIMIT: usize = 20_000;

/// The most edges that a plan has (profile): a node has one for each of its prerequisites.
pub const EDGE_LIMIT: usize = 200_000;

/// A node of the graph.
#[derive(Debug, Drop)]
pub struct PlanNode {
    /// The name that is made, or is there.
    pub name: Name,
    /// The numbers of what it needs, in the rule's order, and an inferred source last unless the rules name it.
    pub prerequisites: Vec<u32>,
    /// What makes it.
    pub maker: Maker,
    /// Whether it is phony.
    pub phony: bool,
    /// Whether the listing has it.
    pub listed: bool,
}

impl Model for PlanNode {
    ghost use Rattle.mk_jobs.specs.Plan.{Node};

    ghost Value = { Node };

    ghost view = { λ a. record {
      name = a.name;
      prerequisites = a.prerequisites.items;
      maker = a.maker;
      phony = a.phony;
      listed = a.listed;
    } };
}

/// A node whose name stands in a table, by the number that it has there.
#[derive(Debug, Drop)]
pub struct NumberedNode {
    /// The number of the name.
    pub name: usize,
    /// The numbers of the nodes that it needs, in the rule's order, and an inferred source last unless the rules name it.
    pub prerequisites: Vec<u32>,
    /// What makes it.
    pub maker: Maker,
    /// Whether it is phony.
    pub phony: bool,
    /// Whether the listing has it.
    pub listed: bool,
}

impl Model for NumberedNode {
    ghost use Rattle.mk_jobs.specs.Plan as plans;

    ghost Value = { plans.NumberedNode };

    ghost view = { λ a. record {
      name = a.name;
      prerequisites = a.prerequisites.items;
      maker = a.maker;
      phony = a.phony;
      listed = a.listed;
    } };
}

/// All that some goals need, in serial order. A node's number is its place. Each name is kept once, in the table.
#[derive(Debug)]
pub struct Plan {
    nodes: Vec<NumberedNode>,
    /// The names of the nodes, in any order.
    names: Numbering,
    /// By the number of a name the place of its node.
    places: Vec<u32>,
    wait_uses: u64,
}

// By hand, so that it is proved once (docs/GATE.md, "What costs the prover").
impl Drop for Plan {
    fn drop(self) {
        let Plan {
            nodes: _,
            names: _,
            places: _,
            wait_uses: _,
        } = self;
    }
}

impl Model for Plan {
    ghost use Rattle.mk_jobs.specs.Plan as plans;

    ghost Value = { plans.Plan };

    ghost view = { λ a. record { nodes = plans.with_names a.names a.nodes.items; wait_uses = a.wait_uses } };

    ghost invariant = { λ a. plans.HaveNames a.names a.nodes.items
        × plans.IsOrdered (plans.with_names a.names a.nodes.items) a.names a.places.items };
}

/// The maker of hashers for a table of the names of these nodes.
fn hasher_of(nodes: &[PlanNode]) -> NameHasher
    ensures { result ≡ sip.write sip.initial (sha256 (key_text (names_of nodes.now))) }
{
    let mut digest = Sha256::new();
    for node in nodes {
        feed_name(&mut digest, &node.name);
    }
    NameHasher::of_digest(digest)
}

/// Some nodes, and the table of their names.
#[derive(Drop)]
struct NodesAndNames {
    nodes: Vec<NumberedNode>,
    names: Numbering,
}

/// The nodes with their names put into a table, in which each has its node's place as its number.
fn take_names(alloc: Global, nodes: Vec<PlanNode>) -> Result<NodesAndNames, AllocError>
    requires { IsDistinct same_name (names_of nodes.items) }
    ensures names { IfOk result (λ taken. taken.names ≡ names_of nodes.items) }
    ensures nodes { IfOk result (λ taken. with_names taken.names taken.nodes.items ≡ nodes.items) }
    ensures within { IfOk result (λ taken. HaveNames taken.names taken.nodes.items) }
{
    let mut names = Numbering::of_set(IndexSet::with_hasher(alloc, hasher_of(nodes.as_slice())));
    let mut numbered = Vec::new(alloc);
    for node in nodes {
        numbered.push(NumberedNode {
            name: numbered.len(),
            prerequisites: node.prerequisites,
            maker: node.maker,
            phony: node.phony,
            listed: node.listed,
        })?;
        names.insert(node.name)?;
    }
    Ok(NodesAndNames {
        nodes: numbered,
        names,
    })
}

/// The numbers below a count, rising.
fn numbers_below(alloc: Global, count: u32) -> Result<Vec<u32>, AllocError>
    ensures length { IfOk result (λ numbers. length numbers.items ≡ count) }
    ensures each { IfOk result (λ numbers. (n : ℕ) → n < count → get_or numbers.items n 0 ≡ n) }
{
    let mut numbers = Vec::new(alloc);
    for number in 0..count {
        numbers.push(number)?;
    }
    Ok(numbers)
}

impl Plan {
    /// The plan of these nodes, of which each stands after what it needs. The only error is out of memory.
    pub fn new(alloc: Global, nodes: Vec<PlanNode>, wait_uses: u64) -> Result<Plan, AllocError>
        requires few { length nodes.items ≤ node_limit }
        requires few_edges { edge_count nodes.items ≤ edge_limit }
        requires distinct { IsDistinct same_name (names_of nodes.items) }
        requires rising { NeedsStandBefore nodes.items }
        ensures { IfOk result (λ plan. plan ≡ record { nodes = nodes.items; wait_uses = wait_uses }) }
    {
        let NodesAndNames { nodes, names } = take_names(alloc, nodes)?;
        let places = numbers_below(alloc, nodes.len() as u32)?;
        Ok(Plan::numbered(nodes, names, places, wait_uses))
    }

    /// The plan of these nodes, of which each stands after what it needs. Their names are numbered, in any order, and the
    /// number of a name has the place of its node beside it.
    pub fn numbered(
        nodes: Vec<NumberedNode>,
        names: Numbering,
        places: Vec<u32>,
        wait_uses: u64,
    ) -> Plan
        requires few { length nodes.items ≤ node_limit }
        requires few_edges { edge_count (with_names names nodes.items) ≤ edge_limit }
        requires within { HaveNames names nodes.items }
        requires distinct { IsDistinct same_name (names_of (with_names names nodes.items)) }
        requires rising { NeedsStandBefore (with_names names nodes.items) }
        requires places { length places.items ≡ length names }
        requires found { AreFoundBy (with_names names nodes.items) names places.items }
        ensures { result ≡ record { nodes = with_names names nodes.items; wait_uses = wait_uses } }
    {
        Plan {
            nodes,
            names,
            places,
            wait_uses,
        }
    }

    /// How many nodes there are, at most `NODE_LIMIT`; they have at most `EDGE_LIMIT` prerequisites together. No name is
    /// that of two nodes, and each node stands after what it needs.
    pub fn count(&self) -> u32
        ensures count { result ≡ length self.now.nodes }
        ensures few { result ≤ node_limit }
        ensures few_edges { edge_count self.now.nodes ≤ edge_limit }
        ensures distinct { IsDistinct same_name (names_of self.now.nodes) }
        ensures rising { NeedsStandBefore self.now.nodes }
    {
        self.nodes.len() as u32
    }

    /// The numbers of what a node needs, in the rule's order and the inferred source last, unless the rules name it:
    /// each is below the node's own. Its number must be below the count of nodes.
    pub fn prerequisites(&self, n: u32) -> &[u32]
        requires { n < length self.now.nodes }
        ensures value { result.now ≡ (node_at self.now.nodes n).prerequisites }
        ensures smaller { (p : ℕ) → IsTrue (has nat_eq result.now p) → p < n }
    {
        let node = &self.nodes[n as usize];
        node.prerequisites.as_slice()
    }

    /// The name of a node. Its number must be below the count of nodes.
    pub fn name(&self, n: u32) -> &Name
        requires { n < length self.now.nodes }
        ensures { result.now ≡ (node_at self.now.nodes n).name }
    {
        let node = &self.nodes[n as usize];
        self.names.name(node.name)
    }

    /// The number of the node with this name, if there is one.
    pub fn number(&self, name: &Name) -> Option<u32>
        ensures { result ≡ number_of (names_of self.now.nodes) name.now }
    {
        let number = self.names.number(name)?;
        Some(self.places[number])
    }

    /// What makes a node's name. Its number must be below the count of nodes.
    pub fn maker(&self, n: u32) -> Maker
        requires { n < length self.now.nodes }
        ensures { result ≡ (node_at self.now.nodes n).maker }
    {
        let node = &self.nodes[n as usize];
        node.maker
    }

    /// Whether a node is phony. Its number must be below the count of nodes.
    pub fn is_phony(&self, n: u32) -> bool
        requires { n < length self.now.nodes }
        ensures { result ≡ (node_at self.now.nodes n).phony }
    {
        let node = &self.nodes[n as usize];
        node.phony
    }

    /// Whether the listing has a node's name. Its number must be below the count of nodes.
    pub fn is_listed(&self, n: u32) -> bool
        requires { n < length self.now.nodes }
        ensures { result ≡ (node_at self.now.nodes n).listed }
    {
        let node = &self.nodes[n as usize];
        node.listed
    }

    /// How often `.WAIT` was used.
    pub fn wait_uses(&self) -> u64
        ensures { result ≡ self.now.wait_uses }
    {
        self.wait_uses
    }
}
