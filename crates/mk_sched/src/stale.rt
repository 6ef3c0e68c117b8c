//! Which nodes are stale.
ghost use Rattle.std.specs.Prelude.{◌≡◌, ◌<◌, ◌||◌, ℕ, length, get_or, option_map};
ghost use Rattle.std.specs.List.{list_any};
ghost use Rattle.mk_jobs.specs.Jobs.{node_count, name_of, is_phony, has_recipe};
ghost use Rattle.mk_sched.specs.Stored.{store_of};
ghost use Rattle.mk_sched.specs.Stores as stores;

use crate::file::File;
use crate::store::Store;
use mk_jobs::jobs::Jobs;
use mk_jobs::recipe;

/// Whether the second file makes the first out of date: it is absent, or newer, or with `tie` as old. Where the first is
/// absent it always does.
fn outdates(tie: bool, own: Option<&File>, other: Option<&File>) -> bool
    ensures { result ≡ stores.outdates tie
        (option_map (λ file. file.now) own.entry) (option_map (λ file. file.now) other.entry) }
{
    match (own, other) {
        (Some(own), Some(other)) => {
            own.time() < other.time() || (tie && own.time() == other.time())
        }
        _ => true,
    }
}

/// Whether one of these nodes is phony or makes the file out of date.
fn is_outdated(jobs: &Jobs, store: &Store, tie: bool, own: Option<&File>, nodes: &[u32]) -> bool
    requires { (k : ℕ) (d : ℕ) → k < length nodes.now → get_or nodes.now k d < node_count jobs.now }
    ensures { result ≡ list_any (λ p. is_phony jobs.now p
        || stores.outdates tie (option_map (λ file. file.now) own.entry)
        (store_of store.now (name_of jobs.now p))) nodes.now }
{
    for node in nodes {
        if jobs.is_phony(*node) || outdates(tie, own, store.file(jobs.name(*node))) {
            return true;
        }
    }
    false
}

/// Whether a node is stale (profile): it is phony or absent, or one of its prerequisites is phony or makes it out of
/// date. Its number must be below the count of nodes.
pub(crate) fn is_stale(jobs: &Jobs, store: &Store, tie: bool, n: u32) -> bool
    requires { n < node_count jobs.now }
    ensures { result ≡ stores.is_stale jobs.now tie (store_of store.now) n }
{
    let own = store.file(jobs.name(n));
    let _count = jobs.count();
    jobs.is_phony(n) || own.is_none() || is_outdated(jobs, store, tie, own, jobs.prerequisites(n))
}

/// Whether a node has a recipe. Its number must be below the count of nodes.
pub(crate) fn has_recipe(jobs: &Jobs, n: u32) -> bool
    requires { n < node_count jobs.now }
    ensures { result ≡ has_recipe jobs.now n }
{
    recipe::has_recipe(jobs.maker(n))
}

/// Whether a node must run (profile): it has a recipe and is stale. Its number must be below the count of nodes.
pub(crate) fn must_run(jobs: &Jobs, store: &Store, tie: bool, n: u32) -> bool
    requires { n < node_count jobs.now }
    ensures { result ≡ stores.must_run jobs.now tie (store_of store.now) n }
{
    has_recipe(jobs, n) && is_stale(jobs, store, tie, n)
}
