//! Chains of edges from one node to another.
ghost use Rattle.std.specs.Prelude.{◌≡◌, ◌<◌, ◌↔◌, ◌∷◌, [], All, IfNone, IfOk, IfSome, IsSome, IsTrue, OnOk, length};
ghost use Rattle.mk_jobs.specs.Jobs as spec;
ghost use Rattle.mk_jobs.specs.Jobs.{IsValid, node_count};
ghost use Rattle.mk_decide.specs.Chosen.{IsChosen, IsFirstFrom, IsLeastFrom, NoneFrom};
ghost use Rattle.mk_decide.specs.Paths.{IsFrom};

use crate::before::Before;
use mk_jobs::jobs::Jobs;
use std::alloc::{AllocError, Global};

/// The chain that shows that a is before b, if it is: from a to b edge by edge, where in front of each node but a stands the
/// least of its prerequisites that is a or has a before it. Both numbers must be below the count of nodes, and `before`
/// must speak of the same jobs. The only error is out of memory.
pub fn chain<B: Before>(
    alloc: Global,
    jobs: &Jobs,
    before: &mut B,
    a: u32,
    b: u32,
) -> Result<Option<Vec<u32>>, AllocError>
    requires same { B.jobs before.old ≡ jobs.now }
    requires first { a < node_count jobs.now }
    requires last { b < node_count jobs.now }
    ensures found { IfOk result (λ chain. IsSome chain ↔ spec.Before jobs.now a b) }
    ensures chosen { IfOk result (λ chain. IfSome chain (λ nodes. IsChosen jobs.now a b nodes.items)) }
    ensures keeps { B.jobs before.new ≡ B.jobs before.old }
{
    let mut nodes = Vec::new(alloc);
    if fill_chain(jobs, before, a, b, &mut nodes)? {
        Ok(Some(nodes))
    } else {
        Ok(None)
    }
}

/// Says whether a is before b; if it is, the nodes become the chain that shows it, in place of what they were, as [`chain`] gives
/// it. Both numbers must be below the count of nodes, and `before` must speak of the same jobs. The only error is out of memory.
pub(crate) fn fill_chain<B: Before>(
    jobs: &Jobs,
    before: &mut B,
    a: u32,
    b: u32,
    nodes: &mut Vec<u32>,
) -> Result<bool, AllocError>
    requires same { B.jobs before.old ≡ jobs.now }
    requires first { a < node_count jobs.now }
    requires last { b < node_count jobs.now }
    ensures found { IfOk result (λ found. IsTrue found ↔ spec.Before jobs.now a b) }
    ensures chosen { IfOk result (λ found. IsTrue found → IsChosen jobs.now a b nodes.new.items) }
    ensures keeps { B.jobs before.new ≡ B.jobs before.old }
{
    let count = jobs.count();
    prove!(a < count && b < count);
    if !before.before(a, b) {
        return Ok(false);
    }
    restart(nodes, b)?;
    let mut front = b;
    while let Some(p) = least_from(jobs, before, a, front) {
        nodes.push(p)?;
        front = p;
    }
    nodes.reverse();
    Ok(true)
}

/// Makes this node alone of a list. The only error is out of memory.
fn restart(nodes: &mut Vec<u32>, node: u32) -> Result<(), AllocError>
    ensures { OnOk result (nodes.new.items ≡ node ∷ []) }
{
    nodes.clear();
    nodes.push(node)?;
    Ok(())
}

/// The least of the prerequisites of x to which a itself, or a chain from a, leads, if there is one.
fn least_from<B: Before>(jobs: &Jobs, before: &mut B, a: u32, x: u32) -> Option<u32>
    requires valid { IsValid jobs.now }
    requires same { B.jobs before.old ≡ jobs.now }
    requires first { a < node_count jobs.now }
    requires last { x < node_count jobs.now }
    ensures some { IfSome result (λ p. IsLeastFrom jobs.now a p x) }
    ensures none { IfNone result (¬ spec.Before jobs.now a x) }
    ensures keeps { B.jobs before.new ≡ B.jobs before.old }
{
    let needs = jobs.needs(x);
    match needs.binary_search(&a) {
        Ok(_) => Some(a),
        Err(place) => first_from(before, a, &needs[place..]),
    }
}

/// The first of some nodes to which a itself, or a chain from a, leads, if there is one.
fn first_from<B: Before>(before: &mut B, a: u32, nodes: &[u32]) -> Option<u32>
    requires first { a < node_count (B.jobs before.old) }
    requires all { All (λ p. p < node_count (B.jobs before.old)) nodes.now }
    ensures some { IfSome result (IsFirstFrom (B.jobs before.old) a nodes.now) }
    ensures none { IfNone result (NoneFrom (B.jobs before.old) a nodes.now (length nodes.now)) }
    ensures keeps { B.jobs before.new ≡ B.jobs before.old }
{
    for &p in nodes {
        if is_from(before, a, p) {
            return Some(p);
        }
    }
    None
}

/// Whether x is a or has a before it.
fn is_from<B: Before>(before: &mut B, a: u32, x: u32) -> bool
    requires first { a < node_count (B.jobs before.old) }
    requires second { x < node_count (B.jobs before.old) }
    ensures exact { IsTrue result ↔ IsFrom (B.jobs before.old) a x }
    ensures keeps { B.jobs before.new ≡ B.jobs before.old }
{
    x == a || before.before(a, x)
}
