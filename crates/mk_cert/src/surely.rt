//! Which steps are surely allowed, by the times of the opening and where the steps before have led.
ghost use Rattle.std.specs.Prelude.{◌≡◌, ◌<◌, ◌&&◌, ◌||◌, not, nat_lt, All};
ghost use Rattle.std.specs.List.{list_all, list_any};
ghost use Rattle.mk_proof.specs.Shapes.{node_of};
ghost use Rattle.mk_proof.specs.declared.step.Step.TheVariants as steps;
ghost use Rattle.mk_jobs.specs.Jobs.{has_recipe, is_listed, is_phony, node_count};
ghost use Rattle.mk_sched.specs.Events.{count_to, is_passed, is_running};
ghost use Rattle.mk_sched.specs.Sure.{surely_stale};
ghost use Rattle.mk_cert.specs.Standing.{phases_of, time_in};
ghost use Rattle.mk_cert.specs.Sure as sure;

use crate::standing::Standing;
use crate::times::time;
use mk_jobs::jobs::Jobs;
use mk_jobs::recipe;
use mk_proof::step::Step;

/// Whether a node has a recipe. Its number must be below the count of nodes.
fn has_recipe(jobs: &Jobs, n: u32) -> bool
    requires { n < node_count jobs.now }
    ensures { result ≡ has_recipe jobs.now n }
{
    recipe::has_recipe(jobs.maker(n))
}

/// Whether all these nodes have passed.
fn have_passed(standing: &Standing, nodes: &[u32]) -> bool
    ensures { result ≡ list_all (λ p. is_passed (phases_of standing.now.stages.items p)) nodes.now }
{
    nodes.iter().all(|&p| standing.has_passed(p))
}

/// Whether a node waits, and all its prerequisites have passed. Its number must be below the count of nodes.
fn is_ready(jobs: &Jobs, standing: &Standing, n: u32) -> bool
    requires { n < node_count jobs.now }
    ensures { result ≡ sure.is_ready jobs.now (phases_of standing.now.stages.items) n }
{
    standing.waits(n) && have_passed(standing, jobs.prerequisites(n))
}

/// Whether p's file is surely older than n's. The number p must be below the count of nodes.
fn is_older(jobs: &Jobs, times: &[Option<u32>], standing: &Standing, n: u32, p: u32) -> bool
    requires { p < node_count jobs.now }
    ensures { result ≡ sure.surely_older jobs.now (time_in times.now) (phases_of standing.now.stages.items) n p }
{
    jobs.is_listed(p)
        && !jobs.is_phony(p)
        && time(times, p) < time(times, n)
        && !standing.has_started(p)
}

/// Whether the files of all these nodes are surely older than that of n.
fn are_older(jobs: &Jobs, times: &[Option<u32>], standing: &Standing, n: u32, nodes: &[u32]) -> bool
    requires { All (λ p. p < node_count jobs.now) nodes.now }
    ensures { result
        ≡ list_all (sure.surely_older jobs.now (time_in times.now) (phases_of standing.now.stages.items) n) nodes.now }
{
    nodes.iter().all(|&p| is_older(jobs, times, standing, n, p))
}

/// Whether a node is surely fresh. Its number must be below the count of nodes.
fn is_fresh(jobs: &Jobs, times: &[Option<u32>], standing: &Standing, n: u32) -> bool
    requires { n < node_count jobs.now }
    ensures { result ≡ sure.surely_fresh jobs.now (time_in times.now) (phases_of standing.now.stages.items) n }
{
    let _count = jobs.count();
    jobs.is_listed(n)
        && !jobs.is_phony(n)
        && are_older(jobs, times, standing, n, jobs.prerequisites(n))
}

/// Whether p makes n surely stale. The number p must be below the count of nodes.
fn is_newer(jobs: &Jobs, times: &[Option<u32>], n: u32, p: u32) -> bool
    requires { p < node_count jobs.now }
    ensures { result ≡ is_phony jobs.now p || not (is_listed jobs.now p) || nat_lt (time_in times.now n) (time_in times.now p) }
{
    jobs.is_phony(p) || !jobs.is_listed(p) || time(times, n) < time(times, p)
}

/// Whether one of these nodes makes n surely stale.
fn is_some_newer(jobs: &Jobs, times: &[Option<u32>], n: u32, nodes: &[u32]) -> bool
    requires { All (λ p. p < node_count jobs.now) nodes.now }
    ensures { result
        ≡ list_any (λ p. is_phony jobs.now p || not (is_listed jobs.now p) || nat_lt (time_in times.now n) (time_in times.now p)) nodes.now }
{
    nodes.iter().any(|&p| is_newer(jobs, times, n, p))
}

/// Whether a node is surely stale. Its number must be below the count of nodes.
fn is_stale(jobs: &Jobs, times: &[Option<u32>], n: u32) -> bool
    requires { n < node_count jobs.now }
    ensures { result ≡ surely_stale jobs.now (time_in times.now) n }
{
    let _count = jobs.count();
    jobs.is_phony(n) || !jobs.is_listed(n) || is_some_newer(jobs, times, n, jobs.prerequisites(n))
}

/// Whether a skip is surely allowed. The node's number must be below the count of nodes.
fn may_skip(jobs: &Jobs, times: &[Option<u32>], standing: &Standing, n: u32) -> bool
    requires { n < node_count jobs.now }
    ensures { result ≡ sure.passes jobs.now (time_in times.now) (phases_of standing.now.stages.items) (steps.Skip n) }
{
    is_ready(jobs, standing, n) && (!has_recipe(jobs, n) || is_fresh(jobs, times, standing, n))
}

/// Whether a start is surely allowed. The node's number must be below the count of nodes.
fn may_start(jobs: &Jobs, times: &[Option<u32>], standing: &Standing, n: u32) -> bool
    requires node { n < node_count jobs.now }
    requires counted { standing.now.running
        ≡ count_to (λ k. is_running (phases_of standing.now.stages.items k)) (node_count jobs.now) }
    ensures { result ≡ sure.passes jobs.now (time_in times.now) (phases_of standing.now.stages.items) (steps.Start n) }
{
    is_ready(jobs, standing, n)
        && has_recipe(jobs, n)
        && is_stale(jobs, times, n)
        && standing.running < 2
}

/// Whether a step is surely allowed (profile).
pub(crate) fn passes(jobs: &Jobs, times: &[Option<u32>], standing: &Standing, step: Step) -> bool
    requires { standing.now.running
        ≡ count_to (λ k. is_running (phases_of standing.now.stages.items k)) (node_count jobs.now) }
    ensures { result ≡ sure.passes jobs.now (time_in times.now) (phases_of standing.now.stages.items) step }
{
    if step.node() >= jobs.count() {
        return false;
    }
    match step {
        Step::Skip(n) => may_skip(jobs, times, standing, n),
        Step::Start(n) => may_start(jobs, times, standing, n),
        Step::Finish(n) => standing.runs(n),
    }
}
