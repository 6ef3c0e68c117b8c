//! From items to their jobs, or to the first task that writes another node's file.
ghost use Rattle.std.specs.Prelude.{◌≡◌, ◌∷◌, [], IfErr, IfOk, OnOk, None, Ok, fold, map};
ghost use Rattle.std.specs.BTreeSet.{insert_key};
ghost use Rattle.std.specs.Cmp.Lexicographic.{slice_cmp};
ghost use Rattle.std.specs.List.{All};
ghost use Rattle.std.specs.List.Sorted.{IsStrictlySortedBy};
ghost use Rattle.std.specs.Ordering.{nat_cmp};
ghost use Rattle.mk_name.specs.Gives.{Gives, Halts};
ghost use Rattle.mk_name.specs.declared.fault.Halt.TheVariants as halts;
ghost use Rattle.mk_text.specs.Listing as listings;
ghost use Rattle.mk_jobs.specs.Recipes.{is_live_node};
ghost use Rattle.mk_jobs.specs.Shape.{IsRising};
ghost use Rattle.mk_task.specs.Tasks.{reported};
ghost use Rattle.mk_due.specs.Good.{AreGood};
ghost use Rattle.mk_due.specs.Items.{names_of, nodes_of};
ghost use Rattle.mk_due.specs.JobsOf as spec;

use crate::item::DueItem;
use mk_jobs::jobs::Jobs;
use mk_jobs::plan::{Plan, PlanNode};
use mk_jobs::recipe::has_recipe;
use mk_name::fault::{Fault, Halt, Kind, Source};
use mk_name::name::Name;
use mk_path::path::Path;
use mk_path::taken::least_covered;
use mk_task::making::in_order;
use mk_text::root::Root;
use std::alloc::{AllocError, Global};
use std::collections::BTreeSet;

/// What jobs are made of: nodes, and for each a row of what it reads and one of what it writes.
#[derive(Debug, Drop)]
struct Rows {
    nodes: Vec<PlanNode>,
    reads: Vec<Vec<Path>>,
    writes: Vec<Vec<Path>>,
}

/// A node, and what it reads and writes, each path once.
#[derive(Debug, Drop)]
struct Row {
    node: PlanNode,
    reads: Vec<Path>,
    writes: Vec<Path>,
}

/// The jobs of items, whose paths were read below this root; or the fault of the first that writes another node's name. The
/// only other error is out of memory.
pub(crate) fn jobs_of(alloc: Global, items: Vec<DueItem>, root: &Root) -> Result<Jobs, Halt>
    requires { AreGood items.items }
    ensures { Gives result (spec.made root.now (Ok items.items)) }
{
    let names = names_in_order(alloc, items.as_slice())?;
    let lent = lent(alloc, names.as_slice())?;
    let Rows {
        nodes,
        reads,
        writes,
    } = rows_of(alloc, items, root, lent.as_slice())?;
    let plan = Plan::new(alloc, nodes, 0)?;
    match Jobs::new(alloc, plan, root.copy(alloc)?, reads, writes) {
        Ok(jobs) => Ok(jobs),
        Err(_plan) => Err(Halt::Memory),
    }
}

/// The names of items, rising. The only error is out of memory.
fn names_in_order(alloc: Global, items: &[DueItem]) -> Result<Vec<Name>, AllocError>
    ensures names { IfOk result (λ list. list.items ≡ listings.in_order (names_of items.now)) }
    ensures rising { IfOk result (λ list. IsStrictlySortedBy (slice_cmp nat_cmp) list.items) }
{
    let mut names = BTreeSet::new(alloc);
    add_names(alloc, &mut names, items)?;
    rising(alloc, &names)
}

/// Adds the names of items.
fn add_names(alloc: Global, names: &mut BTreeSet<Name>, items: &[DueItem]) -> Result<(), AllocError>
    ensures { OnOk result (names.new.keys
        ≡ fold (insert_key (slice_cmp nat_cmp)) names.old.keys (names_of items.now)) }
{
    for item in items {
        names.insert(item.node.name.copy(alloc)?)?;
    }
    Ok(())
}

/// The names of a set, rising.
fn rising(alloc: Global, names: &BTreeSet<Name>) -> Result<Vec<Name>, AllocError>
    ensures names { IfOk result (λ list. list.items ≡ names.now.keys) }
    ensures rising { IfOk result (λ list. IsStrictlySortedBy (slice_cmp nat_cmp) list.items) }
{
    let mut list = Vec::with_capacity(alloc, names.len())?;
    for name in names {
        list.push(name.copy(alloc)?)?;
    }
    Ok(list)
}

/// The names, lent one by one. The only error is out of memory.
fn lent(alloc: Global, names: &[Name]) -> Result<Vec<&Name>, AllocError>
    ensures { IfOk result (λ list. map (λ name. name.now) list.items ≡ names.now) }
{
    names.iter().collect(alloc)
}

/// The nodes of items, and their rows, in which each path stands once; or the fault of the first item that writes another of
/// these names, which rise. The only other error is out of memory.
fn rows_of(alloc: Global, items: Vec<DueItem>, root: &Root, names: &[&Name]) -> Result<Rows, Halt>
    requires { IsStrictlySortedBy (slice_cmp nat_cmp) (map (λ name. name.now) names.now) }
    ensures none { IfOk result (λ rows.
        spec.first_fault root.now (map (λ name. name.now) names.now) items.items ≡ None) }
    ensures nodes { IfOk result (λ rows. rows.nodes.items ≡ nodes_of items.items) }
    ensures reads { IfOk result (λ rows. map (λ row. row.items) rows.reads.items ≡ map spec.reads_of items.items) }
    ensures writes { IfOk result (λ rows. map (λ row. row.items) rows.writes.items ≡ map spec.writes_of items.items) }
    ensures reads_rise { IfOk result (λ rows. All IsRising (map (λ row. row.items) rows.reads.items)) }
    ensures writes_rise { IfOk result (λ rows. All IsRising (map (λ row. row.items) rows.writes.items)) }
    ensures fault { IfErr result (λ halt.
        Halts halt (spec.made_beside root.now (map (λ name. name.now) names.now) items.items)) }
{
    let mut nodes = Vec::new(alloc);
    let mut reads = Vec::new(alloc);
    let mut writes = Vec::new(alloc);
    for item in items {
        let row = row_of(alloc, item, root, names)?;
        nodes.push(row.node)?;
        reads.push(row.reads)?;
        writes.push(row.writes)?;
    }
    Ok(Rows {
        nodes,
        reads,
        writes,
    })
}

/// The node of an item, and what it reads and writes; or its fault, where it writes another of these names, which rise. The
/// only other error is out of memory.
fn row_of(alloc: Global, item: DueItem, root: &Root, names: &[&Name]) -> Result<Row, Halt>
    requires { IsStrictlySortedBy (slice_cmp nat_cmp) (map (λ name. name.now) names.now) }
    ensures none { IfOk result (λ row.
        spec.item_fault root.now (map (λ name. name.now) names.now) item ≡ None) }
    ensures node { IfOk result (λ row. row.node ≡ item.node) }
    ensures reads { IfOk result (λ row. row.reads.items ≡ spec.reads_of item) }
    ensures writes { IfOk result (λ row. row.writes.items ≡ spec.writes_of item) }
    ensures rising { IfOk result (λ row. IsRising row.reads.items × IsRising row.writes.items) }
    ensures fault { IfErr result (λ halt.
        Halts halt (spec.answer_of (spec.item_fault root.now (map (λ name. name.now) names.now) item))) }
{
    let DueItem {
        node,
        label,
        place,
        reads,
        writes,
    } = item;
    if !is_live(&node) {
        return Ok(Row {
            node,
            reads: Vec::new(alloc),
            writes: Vec::new(alloc),
        });
    }
    let reads = in_order(alloc, reads)?;
    let writes = in_order(alloc, writes)?;
    match least_covered(root, writes.as_slice(), names, &node.name) {
        Some(other) => Err(taken(alloc, label, other, place)?),
        None => Ok(Row {
            node,
            reads,
            writes,
        }),
    }
}

/// Whether a node has a recipe that can run.
fn is_live(node: &PlanNode) -> bool
    ensures { result ≡ is_live_node node.now }
{
    let idle = node.listed && !node.phony && node.prerequisites.is_empty();
    has_recipe(node.maker) && !idle
}

/// The fault of the task with a label, said at a place, that writes the name of another node. The only error is out of memory.
fn taken(alloc: Global, label: Name, other: &Name, place: u64) -> Result<Halt, AllocError>
    ensures { IfOk result (λ halt. halt
        ≡ halts.Fault (reported Kind.WritesTarget place (label ∷ other.now ∷ []))) }
{
    let names = vec![in alloc; label, other.copy(alloc)?]?;
    let fault = Fault::new(Kind::WritesTarget, Source::Tasks, place, names);
    Ok(Halt::Fault(fault))
}
