//! From tasks to their jobs.
ghost use Rattle.std.specs.Prelude.{◌≡◌, [], IfOk, OnOk, fold, map};
ghost use Rattle.std.specs.List.{All};
ghost use Rattle.std.specs.BTreeSet.{insert_key};
ghost use Rattle.mk_path.specs.Paths.{path_cmp};
ghost use Rattle.mk_jobs.specs.Shape.{IsRising};
ghost use Rattle.mk_foot.specs.Footprints.{in_order};
ghost use Rattle.mk_task.specs.Good.{AreGood};
ghost use Rattle.mk_task.specs.JobsOf as spec;

use crate::tasks::Task;
use mk_jobs::jobs::Jobs;
use mk_jobs::maker::Maker;
use mk_jobs::plan::{Plan, PlanNode};
use mk_name::name::Name;
use mk_path::path::Path;
use mk_text::root::Root;
use std::alloc::{AllocError, Global};
use std::collections::BTreeSet;

/// What stands before the label in the name of a task's own node.
const OWN: &[u8] = b"//\0";

/// What jobs are made of: nodes, and for each a row of what it reads and one of what it writes.
#[derive(Debug, Drop)]
struct Rows {
    nodes: Vec<PlanNode>,
    reads: Vec<Vec<Path>>,
    writes: Vec<Vec<Path>>,
}

/// The jobs of tasks, whose paths were read below this root. The only error is out of memory.
pub(crate) fn jobs_of(alloc: Global, tasks: Vec<Task>, root: &Root) -> Result<Jobs, AllocError>
    requires { AreGood root.now tasks.items }
    ensures { IfOk result (λ jobs. jobs ≡ spec.jobs_of root.now tasks.items) }
{
    let Rows {
        nodes,
        reads,
        writes,
    } = rows_of(alloc, tasks)?;
    let plan = Plan::new(alloc, nodes, 0)?;
    match Jobs::new(alloc, plan, root.copy(alloc)?, reads, writes) {
        Ok(jobs) => Ok(jobs),
        Err(_plan) => Err(AllocError),
    }
}

/// The nodes of tasks, and their rows, in which each path stands once. The only error is out of memory.
fn rows_of(alloc: Global, tasks: Vec<Task>) -> Result<Rows, AllocError>
    ensures nodes { IfOk result (λ rows. rows.nodes.items ≡ map spec.node_of tasks.items) }
    ensures reads { IfOk result (λ rows. map (λ row. row.items) rows.reads.items
        ≡ map (λ task. in_order task.reads) tasks.items) }
    ensures writes { IfOk result (λ rows. map (λ row. row.items) rows.writes.items
        ≡ map (λ task. in_order task.writes) tasks.items) }
    ensures reads_rise { IfOk result (λ rows. All IsRising (map (λ row. row.items) rows.reads.items)) }
    ensures writes_rise { IfOk result (λ rows. All IsRising (map (λ row. row.items) rows.writes.items)) }
{
    let mut nodes = Vec::new(alloc);
    let mut reads = Vec::new(alloc);
    let mut writes = Vec::new(alloc);
    for task in tasks {
        nodes.push(node_of(alloc, task.label, task.needs)?)?;
        reads.push(in_order(alloc, task.reads)?)?;
        writes.push(in_order(alloc, task.writes)?)?;
    }
    Ok(Rows {
        nodes,
        reads,
        writes,
    })
}

/// The node of the task with this label, behind these numbers. The only error is out of memory.
fn node_of(alloc: Global, label: Name, needs: Vec<u32>) -> Result<PlanNode, AllocError>
    ensures { IfOk result (λ node. node
        ≡ spec.node_of (record { label = label; needs = needs.items; reads = []; writes = [] })) }
{
    Ok(PlanNode {
        name: own_name(alloc, &label)?,
        prerequisites: needs,
        maker: Maker::Rule,
        phony: true,
        listed: false,
    })
}

/// The name of a task's own node, which no path spells. The only error is out of memory.
pub fn own_name(alloc: Global, label: &Name) -> Result<Name, AllocError>
    ensures { IfOk result (λ name. name ≡ spec.own_name label.now) }
{
    let mut bytes = Vec::from_slice(alloc, OWN)?;
    bytes.extend_from_slice(label.as_bytes())?;
    Ok(Name::from_bytes(bytes))
}

/// The paths in their order, each once. The only error is out of memory.
pub fn in_order(alloc: Global, paths: Vec<Path>) -> Result<Vec<Path>, AllocError>
    ensures paths { IfOk result (λ list. list.items ≡ in_order paths.items) }
    ensures rising { IfOk result (λ list. IsRising list.items) }
{
    let mut set = BTreeSet::new(alloc);
    add_paths(&mut set, paths)?;
    rising(alloc, &set)
}

/// Adds the paths that are not there yet.
fn add_paths(set: &mut BTreeSet<Path>, paths: Vec<Path>) -> Result<(), AllocError>
    ensures { OnOk result (set.new.keys ≡ fold (insert_key path_cmp) set.old.keys paths.items) }
{
    for path in paths {
        set.insert(path)?;
    }
    Ok(())
}

/// The paths of a set, rising.
fn rising(alloc: Global, paths: &BTreeSet<Path>) -> Result<Vec<Path>, AllocError>
    ensures paths { IfOk result (λ list. list.items ≡ paths.now.keys) }
    ensures rising { IfOk result (λ list. IsRising list.items) }
{
    let mut list = Vec::with_capacity(alloc, paths.len())?;
    for path in paths {
        list.push(path.copy(alloc)?)?;
    }
    Ok(list)
}
