//! Jobs with edges added.
ghost use Rattle.std.specs.Prelude.{ℕ, ◌≡◌, ◌<◌, ◌++◌, [], IfOk, IsTrue, ◌↔◌, get_or, length, map};
ghost use Rattle.mk_jobs.specs.Jobs as nodes;
ghost use Rattle.mk_jobs.specs.Jobs.{node_count, prerequisites_of};
ghost use Rattle.mk_jobs.specs.Plan.{edge_count, edge_limit};
ghost use Rattle.mk_fix.specs.Added as spec;
ghost use Rattle.mk_fix.specs.Added.{AreRisingToLive, AreToNodes, sources_to};

use mk_jobs::jobs::Jobs;
use mk_jobs::plan::{EDGE_LIMIT, Plan, PlanNode};
use mk_path::path::Path;
use std::alloc::{AllocError, Global};

/// For each node what its recipe reads and writes.
#[derive(Debug, Drop)]
struct Uses {
    reads: Vec<Vec<Path>>,
    writes: Vec<Vec<Path>>,
}

/// The jobs with these edges too: each node has the first nodes of the edges to it behind its own prerequisites, and nothing
/// else changes. Each edge must go from a smaller number to the greater number of a live node. None where the jobs would have
/// more than `EDGE_LIMIT` edges then. The only error is out of memory.
pub fn with_edges(
    alloc: Global,
    jobs: &Jobs,
    edges: &[(u32, u32)],
) -> Result<Option<Jobs>, AllocError>
    requires { AreRisingToLive jobs.now edges.now }
    ensures { IfOk result (spec.IsWithEdges jobs.now edges.now) }
{
    let _count = jobs.count();
    let nodes = nodes_with(alloc, jobs, edges)?;
    if has_many_edges(&nodes) {
        return Ok(None);
    }
    let Uses { reads, writes } = uses_of(alloc, jobs)?;
    let plan = Plan::new(alloc, nodes, jobs.wait_uses())?;
    match Jobs::new(alloc, plan, jobs.root().copy(alloc)?, reads, writes) {
        Ok(new) => Ok(Some(new)),
        Err(_plan) => Err(AllocError),
    }
}

/// Whether these nodes have more edges than a plan may have.
fn has_many_edges(nodes: &[PlanNode]) -> bool
    ensures { IsTrue result ↔ (edge_limit < edge_count nodes.now) }
{
    let mut count: usize = 0;
    for node in nodes {
        count = count.saturating_add(node.prerequisites.len());
        if count > EDGE_LIMIT {
            return true;
        }
    }
    false
}

/// The nodes of jobs with these edges too. The only error is out of memory.
fn nodes_with(alloc: Global, jobs: &Jobs, edges: &[(u32, u32)]) -> Result<Vec<PlanNode>, AllocError>
    requires { AreRisingToLive jobs.now edges.now }
    ensures { IfOk result (λ nodes. nodes.items ≡ spec.more_needs edges.now 0 jobs.now.plan.nodes) }
{
    let sources = sources_of(alloc, jobs, edges)?;
    let mut nodes = Vec::new(alloc);
    for n in 0..jobs.count() {
        nodes.push(node_with(alloc, jobs, n, &sources[n as usize])?)?;
    }
    Ok(nodes)
}

/// For each node the first nodes of the edges to it, in their order. Each edge must lead to a node. The only error is out of
/// memory.
pub(crate) fn sources_of(
    alloc: Global,
    jobs: &Jobs,
    edges: &[(u32, u32)],
) -> Result<Vec<Vec<u32>>, AllocError>
    requires { AreToNodes jobs.now edges.now }
    ensures count { IfOk result (λ rows. length rows.items ≡ node_count jobs.now) }
    ensures rows { IfOk result (λ rows. (n : ℕ) → n < node_count jobs.now
        → get_or (map (λ row. row.items) rows.items) n [] ≡ sources_to edges.now n) }
{
    let mut rows = Vec::new(alloc);
    for _n in 0..jobs.count() {
        rows.push(Vec::new(alloc))?;
    }
    for &(first, second) in edges {
        rows[second as usize].push(first)?;
    }
    Ok(rows)
}

/// A node of jobs, with these behind its prerequisites. The only error is out of memory.
fn node_with(alloc: Global, jobs: &Jobs, n: u32, sources: &[u32]) -> Result<PlanNode, AllocError>
    requires { n < node_count jobs.now }
    ensures { IfOk result (λ node. node ≡ record (nodes.node_at jobs.now n) { prerequisites = prerequisites_of jobs.now n ++ sources.now }) }
{
    let mut prerequisites = Vec::from_slice(alloc, jobs.prerequisites(n))?;
    prerequisites.extend_from_slice(sources)?;
    Ok(PlanNode {
        name: jobs.name(n).copy(alloc)?,
        prerequisites,
        maker: jobs.maker(n),
        phony: jobs.is_phony(n),
        listed: jobs.is_listed(n),
    })
}

/// What the recipes of jobs read and write. The only error is out of memory.
fn uses_of(alloc: Global, jobs: &Jobs) -> Result<Uses, AllocError>
    ensures reads { IfOk result (λ uses. map (λ row. row.items) uses.reads.items ≡ jobs.now.reads) }
    ensures writes { IfOk result (λ uses. map (λ row. row.items) uses.writes.items ≡ jobs.now.writes) }
{
    let mut reads = Vec::new(alloc);
    let mut writes = Vec::new(alloc);
    for n in 0..jobs.count() {
        reads.push(copies(alloc, jobs.reads(n))?)?;
        writes.push(copies(alloc, jobs.writes(n))?)?;
    }
    Ok(Uses { reads, writes })
}

/// Copies of paths. The only error is out of memory.
fn copies(alloc: Global, paths: &[Path]) -> Result<Vec<Path>, AllocError>
    ensures { IfOk result (λ list. list.items ≡ paths.now) }
{
    let mut list = Vec::with_capacity(alloc, paths.len())?;
    for path in paths {
        list.push(path.copy(alloc)?)?;
    }
    Ok(list)
}
