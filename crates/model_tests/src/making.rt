//! Jobs of nodes and paths.
ghost use Rattle.std.specs.Prelude.{◌≡◌, IfSome, false, true};

use crate::{nodes, rows};
use mk_jobs::jobs::Jobs;
use mk_jobs::maker::Maker;
use mk_jobs::plan::{Plan, PlanNode};
use mk_name::name::Name;
use mk_path::path::Path;
use mk_text::root::Root;
use std::alloc::{AllocError, Global};

/// A node of jobs that a test makes. Its paths must rise; one that ends in a slash is a tree.
#[derive(Clone, Copy)]
pub struct Made<'a> {
    pub name: &'a str,
    pub needs: &'a [u32],
    pub maker: Maker,
    pub listed: bool,
    pub reads: &'a [&'a str],
    pub writes: &'a [&'a str],
}

impl<'a> Made<'a> {
    /// A file that is listed.
    pub fn file(name: &'a str) -> Made<'a>
        ensures listed { result.listed ≡ true }
        ensures maker { result.maker ≡ Maker.Nothing }
    {
        Made {
            name,
            needs: &[],
            maker: Maker::Nothing,
            listed: true,
            reads: &[],
            writes: &[],
        }
    }

    /// A target without commands.
    pub fn plain(name: &'a str, needs: &'a [u32]) -> Made<'a>
        ensures listed { result.listed ≡ false }
        ensures maker { result.maker ≡ Maker.Nothing }
    {
        Made {
            name,
            needs,
            maker: Maker::Nothing,
            listed: false,
            reads: &[],
            writes: &[],
        }
    }

    /// A target with commands, which is not listed.
    pub fn ruled(
        name: &'a str,
        needs: &'a [u32],
        reads: &'a [&'a str],
        writes: &'a [&'a str],
    ) -> Made<'a>
        ensures listed { result.listed ≡ false }
        ensures maker { result.maker ≡ Maker.Rule }
    {
        Made {
            name,
            needs,
            maker: Maker::Rule,
            listed: false,
            reads,
            writes,
        }
    }

    /// A target with commands that is listed and needs nothing, so that its commands can never run.
    pub fn idle(name: &'a str) -> Made<'a>
        ensures listed { result.listed ≡ true }
        ensures maker { result.maker ≡ Maker.Rule }
    {
        Made {
            name,
            needs: &[],
            maker: Maker::Rule,
            listed: true,
            reads: &[],
            writes: &[],
        }
    }
}

/// The jobs of these nodes, below the root `/w`, with one use of `.WAIT`, which orders nothing. There are none where they are not
/// well-formed, or memory ran out.
pub fn jobs_of(alloc: Global, made: &[Made<'_>]) -> Option<Jobs>
    ensures waits { IfSome result (λ jobs. jobs.plan.wait_uses ≡ 1) }
{
    let nodes = nodes_of(alloc, made).ok()?;
    let reads = reads_of(alloc, made).ok()?;
    let writes = writes_of(alloc, made).ok()?;
    of_parts(alloc, nodes, reads, writes)
}

/// The jobs of a line of nodes without recipes, each of which but the first needs the one before it. There are none where they
/// are too many, or memory ran out.
pub fn line_of(alloc: Global, count: u32) -> Option<Jobs>
    ensures waits { IfSome result (λ jobs. jobs.plan.wait_uses ≡ 1) }
{
    let nodes = line_nodes(alloc, count).ok()?;
    let reads = no_paths(alloc, count).ok()?;
    let writes = no_paths(alloc, count).ok()?;
    of_parts(alloc, nodes, reads, writes)
}

fn of_parts(
    alloc: Global,
    nodes: Vec<PlanNode>,
    reads: Vec<Vec<Path>>,
    writes: Vec<Vec<Path>>,
) -> Option<Jobs>
    ensures { IfSome result (λ jobs. jobs.plan.wait_uses ≡ 1) }
{
    if !nodes::are_fit(nodes.as_slice()) {
        return None;
    }
    let plan = Plan::new(alloc, nodes, 1).ok()?;
    let root = Root::read(alloc, b"/w").ok()?;
    on_plan(alloc, plan, root, reads, writes)
}

fn on_plan(
    alloc: Global,
    plan: Plan,
    root: Root,
    reads: Vec<Vec<Path>>,
    writes: Vec<Vec<Path>>,
) -> Option<Jobs>
    ensures { IfSome result (λ jobs. jobs.plan ≡ plan) }
{
    if !rows::are_fit(&plan, &root, reads.as_slice(), writes.as_slice()) {
        return None;
    }
    Jobs::new(alloc, plan, root, reads, writes).ok()
}

fn nodes_of(alloc: Global, made: &[Made<'_>]) -> Result<Vec<PlanNode>, AllocError> {
    let mut nodes = Vec::new(alloc);
    for node in made {
        nodes.push(node_of(alloc, node)?)?;
    }
    Ok(nodes)
}

fn node_of(alloc: Global, made: &Made<'_>) -> Result<PlanNode, AllocError> {
    let name = name_of(alloc, made.name)?;
    let prerequisites = Vec::from_slice(alloc, made.needs)?;
    Ok(PlanNode {
        name,
        prerequisites,
        maker: made.maker,
        phony: false,
        listed: made.listed,
    })
}

fn name_of(alloc: Global, text: &str) -> Result<Name, AllocError> {
    Ok(Name::from_bytes(Vec::from_slice(alloc, text.as_bytes())?))
}

fn reads_of(alloc: Global, made: &[Made<'_>]) -> Result<Vec<Vec<Path>>, AllocError> {
    let mut rows = Vec::new(alloc);
    for node in made {
        rows.push(paths_of(alloc, node.reads)?)?;
    }
    Ok(rows)
}

fn writes_of(alloc: Global, made: &[Made<'_>]) -> Result<Vec<Vec<Path>>, AllocError> {
    let mut rows = Vec::new(alloc);
    for node in made {
        rows.push(paths_of(alloc, node.writes)?)?;
    }
    Ok(rows)
}

fn paths_of(alloc: Global, texts: &[&str]) -> Result<Vec<Path>, AllocError> {
    let mut paths = Vec::new(alloc);
    for text in texts {
        paths.push(path_of(alloc, text)?)?;
    }
    Ok(paths)
}

fn path_of(alloc: Global, text: &str) -> Result<Path, AllocError> {
    match text.strip_suffix("/") {
        Some(name) => Ok(Path {
            name: name_of(alloc, name)?,
            tree: true,
        }),
        None => Ok(Path {
            name: name_of(alloc, text)?,
            tree: false,
        }),
    }
}

fn line_nodes(alloc: Global, count: u32) -> Result<Vec<PlanNode>, AllocError> {
    let mut nodes = Vec::new(alloc);
    for number in 0..count {
        nodes.push(line_node(alloc, number)?)?;
    }
    Ok(nodes)
}

fn line_node(alloc: Global, number: u32) -> Result<PlanNode, AllocError> {
    let text = format!(in alloc; "n{number}")?;
    let mut prerequisites = Vec::new(alloc);
    if number > 0 {
        prerequisites.push(number - 1)?;
    }
    Ok(PlanNode {
        name: name_of(alloc, text.as_str())?,
        prerequisites,
        maker: Maker::Nothing,
        phony: false,
        listed: number == 0,
    })
}

fn no_paths(alloc: Global, count: u32) -> Result<Vec<Vec<Path>>, AllocError> {
    let mut rows = Vec::new(alloc);
    for _ in 0..count {
        rows.push(Vec::new(alloc))?;
    }
    Ok(rows)
}
