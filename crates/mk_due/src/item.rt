//! Nodes with the lines that they come from.
ghost use Rattle.std.specs.Prelude.{◌≡◌, [], IfOk, length};
ghost use Rattle.mk_jobs.specs.Jobs.{has_commands};
ghost use Rattle.mk_due.specs.Items as spec;

use mk_jobs::maker::Maker;
use mk_jobs::plan::PlanNode;
use mk_jobs::recipe::has_recipe;
use mk_name::name::Name;
use mk_path::path::Path;
use mk_task::line::TaskLine;
use mk_task::making::own_name;
use mk_text::listing::Listing;
use std::alloc::{AllocError, Global};
use std::marker::Model;

/// What stands before the label in the name of an order node.
const ORDER: &[u8] = b"//\x01";

/// A node; the line that it comes from, by its label and place; and the paths that are read and written there.
#[derive(Debug, Drop)]
pub(crate) struct DueItem {
    pub(crate) node: PlanNode,
    pub(crate) label: Name,
    pub(crate) place: u64,
    pub(crate) reads: Vec<Path>,
    pub(crate) writes: Vec<Path>,
}

impl Model for DueItem {
    ghost use Rattle.mk_due.specs.Items as spec;

    ghost Value = { spec.DueItem };

    ghost view = { λ a. record {
      node = a.node;
      label = a.label;
      place = a.place;
      reads = a.reads.items;
      writes = a.writes.items;
    } };
}

impl DueItem {
    /// The name of its node.
    pub(crate) fn name(&self) -> &Name
        ensures { result.now ≡ self.now.node.name }
    {
        &self.node.name
    }

    /// How many prerequisites its node has.
    pub(crate) fn needs(&self) -> usize
        ensures { result ≡ length self.now.node.prerequisites }
    {
        self.node.prerequisites.len()
    }

    /// What its node stands behind.
    pub(crate) fn prerequisites(&self) -> &[u32]
        ensures { result.now ≡ self.now.node.prerequisites }
    {
        self.node.prerequisites.as_slice()
    }

    /// Whether it is a task: its node has a recipe.
    pub(crate) fn is_task(&self) -> bool
        ensures { result ≡ has_commands self.now.node.maker }
    {
        has_recipe(self.node.maker)
    }
}

/// The item of a node without a recipe: nothing is read or written there.
fn idle(alloc: Global, node: PlanNode, label: Name, place: u64) -> DueItem
    ensures { result ≡ record { node = node; label = label; place = place; reads = []; writes = [] } }
{
    DueItem {
        node,
        label,
        place,
        reads: Vec::new(alloc),
        writes: Vec::new(alloc),
    }
}

/// The leaf of a file that the line with this label needs. The only error is out of memory.
pub(crate) fn leaf(
    alloc: Global,
    listing: &Listing,
    place: u64,
    label: &Name,
    name: &Name,
) -> Result<DueItem, AllocError>
    ensures { IfOk result (λ item. item ≡ spec.leaf listing.now place label.now name.now) }
{
    let node = PlanNode {
        name: name.copy(alloc)?,
        prerequisites: Vec::new(alloc),
        maker: Maker::Nothing,
        phony: false,
        listed: listing.contains(name),
    };
    Ok(idle(alloc, node, label.copy(alloc)?, place))
}

/// The name of the order node of a line. The only error is out of memory.
fn order_name(alloc: Global, label: &Name) -> Result<Name, AllocError>
    ensures { IfOk result (λ name. name ≡ spec.order_name label.now) }
{
    let mut bytes = Vec::from_slice(alloc, ORDER)?;
    bytes.extend_from_slice(label.as_bytes())?;
    Ok(Name::from_bytes(bytes))
}

/// The order node of a line, behind these numbers. The only error is out of memory.
pub(crate) fn order_item(
    alloc: Global,
    place: u64,
    label: &Name,
    numbers: Vec<u32>,
) -> Result<DueItem, AllocError>
    ensures { IfOk result (λ item. item ≡ spec.order_item place label.now numbers.items) }
{
    let node = PlanNode {
        name: order_name(alloc, label)?,
        prerequisites: numbers,
        maker: Maker::Nothing,
        phony: false,
        listed: true,
    };
    Ok(idle(alloc, node, label.copy(alloc)?, place))
}

/// The task of a line with this node.
pub(crate) fn task_item(place: u64, line: TaskLine, node: PlanNode) -> DueItem
    ensures { result ≡ spec.task_item place line node }
{
    DueItem {
        node,
        label: line.label,
        place,
        reads: line.reads,
        writes: line.writes,
    }
}

/// The node of a task that always runs, behind these numbers. The only error is out of memory.
pub(crate) fn always_node(
    alloc: Global,
    label: &Name,
    numbers: Vec<u32>,
) -> Result<PlanNode, AllocError>
    ensures { IfOk result (λ node. node ≡ spec.always_node label.now numbers.items) }
{
    Ok(PlanNode {
        name: own_name(alloc, label)?,
        prerequisites: numbers,
        maker: Maker::Rule,
        phony: true,
        listed: false,
    })
}

/// The node of a task that makes a file, behind these numbers.
pub(crate) fn due_node(listing: &Listing, makes: Name, numbers: Vec<u32>) -> PlanNode
    ensures { result ≡ spec.due_node listing.now makes numbers.items }
{
    let listed = listing.contains(&makes);
    PlanNode {
        name: makes,
        prerequisites: numbers,
        maker: Maker::Rule,
        phony: false,
        listed,
    }
}
