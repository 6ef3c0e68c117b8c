//! Whether nodes make a plan.
ghost use Rattle.std.specs.Prelude.{◌≡◌, ◌<◌, IsTrue, length, nat_lt};
ghost use Rattle.std.specs.List.{list_all, list_any};
ghost use Rattle.mk_name.specs.Names.{same_name};
ghost use Rattle.model_tests.specs.Nodes.{AreFit, FitsBehind};

use mk_jobs::plan::{NODE_LIMIT, PlanNode};
use mk_name::name::Name;

/// The most prerequisites that a node may have here.
const MOST_NEEDS: usize = 10;

/// Whether the nodes make a plan: there are few, each stands behind what it needs, and no name stands twice.
pub(crate) fn are_fit(nodes: &[PlanNode]) -> bool
    ensures { IsTrue result → AreFit nodes.now }
{
    if nodes.len() > NODE_LIMIT {
        return false;
    }
    for place in 0..nodes.len() {
        if !fits_behind(nodes, place) {
            return false;
        }
    }
    true
}

/// Whether the node at a place fits behind those before it.
fn fits_behind(nodes: &[PlanNode], place: usize) -> bool
    requires { place < length nodes.now }
    ensures { IsTrue result → FitsBehind nodes.now place }
{
    let node = &nodes[place];
    node.prerequisites.len() <= MOST_NEEDS
        && are_below(node.prerequisites.as_slice(), place)
        && !is_named(&nodes[..place], &node.name)
}

/// Whether all these numbers are below one.
fn are_below(numbers: &[u32], end: usize) -> bool
    ensures { result ≡ list_all (λ p. nat_lt p end) numbers.now }
{
    numbers.iter().all(|&p| (p as usize) < end)
}

/// Whether one of these nodes has this name.
fn is_named(nodes: &[PlanNode], name: &Name) -> bool
    ensures { result ≡ list_any (λ node. same_name node.name name.now) nodes.now }
{
    nodes.iter().any(|node| node.name == *name)
}
