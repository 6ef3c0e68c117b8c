//! Jobs that were made again, with edges added.
ghost use Rattle.std.specs.Prelude.{ℕ, ◌≡◌, ◌<◌, ◌≤◌, ◌↔◌, ◌⊎◌, All, Contains, IsTrue};
ghost use Rattle.mk_decide.specs.Pairs.{PairsRise};
ghost use Rattle.mk_jobs.specs.Jobs.{IsPrerequisite, node_count, prerequisites_of};
ghost use Rattle.mk_fix.specs.Again.{HasNeeds, HaveAll, IsSameNode};

use mk_jobs::jobs::Jobs;
use mk_jobs::maker::Maker;
use mk_jobs::recipe::has_recipe;
use mk_name::name::Name;

/// Whether new jobs have all that these jobs have, and these edges, which must be in order: the same nodes with the same
/// makers, and just these prerequisites and the edges. A node without a recipe may have gained one.
pub fn have_all(jobs: &Jobs, edges: &[(u32, u32)], new: &Jobs) -> bool
    requires { PairsRise edges.now }
    ensures { IsTrue result ↔ HaveAll jobs.now edges.now new.now }
{
    if new.count() != jobs.count() {
        return false;
    }
    if !has_nodes(jobs, edges, new) {
        return false;
    }
    has_edges(edges, new)
}

/// Whether each node of jobs is in new jobs as it was, with its prerequisites, and has no others but by these edges.
fn has_nodes(jobs: &Jobs, edges: &[(u32, u32)], new: &Jobs) -> bool
    requires count { node_count jobs.now ≤ node_count new.now }
    requires rise { PairsRise edges.now }
    ensures { IsTrue result ↔ ((n : ℕ) → n < node_count jobs.now
        → IsSameNode jobs.now new.now n × HasNeeds jobs.now edges.now new.now n) }
{
    for n in 0..jobs.count() {
        if !is_same_node(jobs, new, n) || !has_needs(jobs, edges, new, n) {
            return false;
        }
    }
    true
}

/// Whether a node is in new jobs as it was, except for prerequisites.
fn is_same_node(jobs: &Jobs, new: &Jobs, n: u32) -> bool
    requires node { n < node_count jobs.now }
    requires again { n < node_count new.now }
    ensures { IsTrue result ↔ IsSameNode jobs.now new.now n }
{
    if !is_same_name(new.name(n), jobs.name(n)) {
        return false;
    }
    if !is_same_flag(new.is_phony(n), jobs.is_phony(n)) {
        return false;
    }
    let maker = jobs.maker(n);
    if !has_recipe(maker) {
        return true;
    }
    is_same_maker(new.maker(n), maker)
}

/// Whether two names are the same.
fn is_same_name(one: &Name, other: &Name) -> bool
    ensures { IsTrue result ↔ (one.now ≡ other.now) }
{
    one == other
}

/// Whether two flags are the same.
fn is_same_flag(first: bool, second: bool) -> bool
    ensures { IsTrue result ↔ (first ≡ second) }
{
    first == second
}

/// Whether two makers are the same.
fn is_same_maker(new: Maker, old: Maker) -> bool
    ensures { IsTrue result ↔ (new ≡ old) }
{
    new == old
}

/// Whether a node keeps its prerequisites in new jobs, and where it has a recipe has no others but by these edges.
fn has_needs(jobs: &Jobs, edges: &[(u32, u32)], new: &Jobs, n: u32) -> bool
    requires node { n < node_count jobs.now }
    requires again { n < node_count new.now }
    requires rise { PairsRise edges.now }
    ensures { IsTrue result ↔ HasNeeds jobs.now edges.now new.now n }
{
    if !keeps_needs(jobs, new, n) {
        return false;
    }
    if !has_recipe(jobs.maker(n)) {
        return true;
    }
    has_no_others(jobs, edges, new, n)
}

/// Whether a node keeps its prerequisites in new jobs.
fn keeps_needs(jobs: &Jobs, new: &Jobs, n: u32) -> bool
    requires node { n < node_count jobs.now }
    requires again { n < node_count new.now }
    ensures { IsTrue result ↔ All (λ p. IsPrerequisite new.now p n) (prerequisites_of jobs.now n) }
{
    for &p in jobs.prerequisites(n) {
        if !new.is_prerequisite(p, n) {
            return false;
        }
    }
    true
}

/// Whether each prerequisite of a node in new jobs is one that it had, or is added by these edges.
fn has_no_others(jobs: &Jobs, edges: &[(u32, u32)], new: &Jobs, n: u32) -> bool
    requires node { n < node_count jobs.now }
    requires again { n < node_count new.now }
    requires rise { PairsRise edges.now }
    ensures { IsTrue result
        ↔ All (λ p. IsPrerequisite jobs.now p n ⊎ Contains edges.now (p, n)) (prerequisites_of new.now n) }
{
    for &p in new.prerequisites(n) {
        if !jobs.is_prerequisite(p, n) && !has_edge(edges, p, n) {
            return false;
        }
    }
    true
}

/// Whether an edge is among these, which must be in order.
fn has_edge(edges: &[(u32, u32)], p: u32, n: u32) -> bool
    requires { PairsRise edges.now }
    ensures { IsTrue result ↔ Contains edges.now (p, n) }
{
    edges.binary_search(&(p, n)).is_ok()
}

/// Whether new jobs have each of these edges.
fn has_edges(edges: &[(u32, u32)], new: &Jobs) -> bool
    ensures { IsTrue result ↔ All (λ edge. IsPrerequisite new.now edge.0 edge.1) edges.now }
{
    let count = new.count();
    for &(p, n) in edges {
        if n >= count || !new.is_prerequisite(p, n) {
            return false;
        }
    }
    true
}
