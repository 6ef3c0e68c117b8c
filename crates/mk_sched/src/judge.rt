//! Whether an event is allowed in a state, and if not, why.
ghost use Rattle.std.specs.Prelude.{◌≡◌, ◌<◌, ◌↔◌, ◌||◌, ◌∷◌, [], List, ℕ, Bool, not};
ghost use Rattle.std.specs.Prelude.{IsTrue, option_map};
ghost use Rattle.std.specs.List.{list_any};
ghost use Rattle.mk_jobs.specs.Jobs.{node_count, prerequisites_of};
ghost use Rattle.mk_sched.specs.Events.{Skip as skip, Start as start, Look as look, Put as put, Erase as erase, Finish as finish};
ghost use Rattle.mk_sched.specs.Events.{count_to};
ghost use Rattle.mk_sched.specs.Refusals.{Finds, Holds, asked};
ghost use Rattle.mk_sched.specs.Standing.{held};
ghost use Rattle.mk_sched.specs.Steps.{step_of};
ghost use Rattle.mk_sched.specs.Stores.{bytes_of};
ghost use Rattle.mk_sched.specs.declared.refusal.Refusal.TheVariants as refusals;

use crate::contents::Contents;
use crate::event::Event;
use crate::file::File;
use crate::refusal::Refusal;
use crate::stale::{has_recipe, is_stale, must_run};
use crate::state::State;
use mk_jobs::jobs::Jobs;
use mk_name::name::Name;

/// Whether one of these nodes has not passed.
fn lacks(state: &State, nodes: &[u32]) -> bool
    ensures { result ≡ list_any (λ p. not ((held state.now).passed p)) nodes.now }
{
    for node in nodes {
        if !state.has_passed(*node) {
            return true;
        }
    }
    false
}

/// Whether a prerequisite of a node has not passed. The number must be below the count of nodes.
fn is_unready(state: &State, jobs: &Jobs, n: u32) -> bool
    requires { n < node_count jobs.now }
    ensures { result
        ≡ list_any (λ p. not ((held state.now).passed p)) (prerequisites_of jobs.now n) }
{
    lacks(state, jobs.prerequisites(n))
}

/// Whether a node has passed or runs.
fn has_begun(state: &State, n: u32) -> bool
    ensures { result ≡ (held state.now).passed n
        || (held state.now).running n }
{
    state.has_passed(n) || state.runs(n)
}

/// Whether a look finds what a file holds, or that there is none.
fn has_report(seen: &Option<Contents>, file: Option<&File>) -> bool
    ensures { IsTrue result ↔ (seen.now ≡ bytes_of (option_map (λ file. file.now) file.entry)) }
{
    match (seen, file) {
        (None, None) => true,
        (Some(contents), Some(file)) => contents.as_bytes() == file.contents().as_bytes(),
        _ => false,
    }
}

/// Why a skip is refused, if it is. The number must be below the count of nodes.
fn skip_refusal(state: &State, jobs: &Jobs, tie: bool, n: u32) -> Option<Refusal>
    requires { n < node_count jobs.now }
    ensures { (limit : ℕ) → Finds (Holds jobs.now tie limit (held state.now) n skip)
        (refusals.TwicePassed ∷ refusals.NotReady ∷ refusals.Stale ∷ []) result }
{
    if has_begun(state, n) {
        return Some(Refusal::TwicePassed);
    }
    if is_unready(state, jobs, n) {
        return Some(Refusal::NotReady);
    }
    if must_run(jobs, &state.store, tie, n) {
        return Some(Refusal::Stale);
    }
    None
}

/// Why a start is refused, if it is. The number must be below the count of nodes.
fn start_refusal(state: &State, jobs: &Jobs, tie: bool, limit: u32, n: u32) -> Option<Refusal>
    requires node { n < node_count jobs.now }
    requires counted { state.now.running
        ≡ count_to (held state.now).running (node_count jobs.now) }
    ensures { Finds (Holds jobs.now tie limit (held state.now) n start)
        (refusals.TwicePassed ∷ refusals.NotReady ∷ refusals.NoRecipe ∷ refusals.NotStale
        ∷ refusals.TooManyJobs ∷ []) result }
{
    if has_begun(state, n) {
        return Some(Refusal::TwicePassed);
    }
    if is_unready(state, jobs, n) {
        return Some(Refusal::NotReady);
    }
    if !has_recipe(jobs, n) {
        return Some(Refusal::NoRecipe);
    }
    if !is_stale(jobs, &state.store, tie, n) {
        return Some(Refusal::NotStale);
    }
    if state.running >= limit {
        return Some(Refusal::TooManyJobs);
    }
    None
}

/// Why a look is refused, if it is. The number must be below the count of nodes.
fn look_refusal(
    state: &State,
    jobs: &Jobs,
    n: u32,
    path: &Name,
    seen: &Option<Contents>,
) -> Option<Refusal>
    requires { n < node_count jobs.now }
    ensures { (tie : Bool) (limit : ℕ) →
        Finds (Holds jobs.now tie limit (held state.now) n (look path.now seen.now))
        (refusals.NotRunning ∷ refusals.OutsideFootprint ∷ refusals.WrongBytes ∷ []) result }
{
    if !state.runs(n) {
        return Some(Refusal::NotRunning);
    }
    if !jobs.may_read(n, path) {
        return Some(Refusal::OutsideFootprint);
    }
    if !has_report(seen, state.store.file(path)) {
        return Some(Refusal::WrongBytes);
    }
    None
}

/// Why a put is refused, if it is. The number must be below the count of nodes.
fn put_refusal(state: &State, jobs: &Jobs, n: u32, path: &Name, time: u64) -> Option<Refusal>
    requires { n < node_count jobs.now }
    ensures { (tie : Bool) (limit : ℕ) (bytes : List ℕ) →
        Finds (Holds jobs.now tie limit (held state.now) n (put path.now bytes time))
        (refusals.NotRunning ∷ refusals.OutsideFootprint ∷ refusals.NotNewer ∷ []) result }
{
    if !state.runs(n) {
        return Some(Refusal::NotRunning);
    }
    if !jobs.may_write(n, path) {
        return Some(Refusal::OutsideFootprint);
    }
    if !state.store.is_before(time) {
        return Some(Refusal::NotNewer);
    }
    None
}

/// Why an erasure is refused, if it is. The number must be below the count of nodes.
fn erase_refusal(state: &State, jobs: &Jobs, n: u32, path: &Name) -> Option<Refusal>
    requires { n < node_count jobs.now }
    ensures { (tie : Bool) (limit : ℕ) →
        Finds (Holds jobs.now tie limit (held state.now) n (erase path.now))
        (refusals.NotRunning ∷ refusals.OutsideFootprint ∷ []) result }
{
    if !state.runs(n) {
        return Some(Refusal::NotRunning);
    }
    if !jobs.may_write(n, path) {
        return Some(Refusal::OutsideFootprint);
    }
    None
}

/// Why a finish is refused, if it is.
fn finish_refusal(state: &State, jobs: &Jobs, n: u32) -> Option<Refusal>
    ensures { (tie : Bool) (limit : ℕ) →
        Finds (Holds jobs.now tie limit (held state.now) n finish)
        (refusals.NotRunning ∷ []) result }
{
    if !state.runs(n) {
        return Some(Refusal::NotRunning);
    }
    None
}

/// Why an event is refused, if it is: the first refusal of its list that holds.
pub(crate) fn refusal(
    state: &State,
    jobs: &Jobs,
    tie: bool,
    limit: u32,
    event: &Event,
) -> Option<Refusal>
    requires counted { state.now.running
        ≡ count_to (held state.now).running (node_count jobs.now) }
    ensures { Finds
        (Holds jobs.now tie limit (held state.now) (step_of event.now).node (step_of event.now).act)
        (asked (step_of event.now).act) result }
{
    if event.node() >= jobs.count() {
        return Some(Refusal::NoNode);
    }
    match event {
        Event::Skip(n) => skip_refusal(state, jobs, tie, *n),
        Event::Start(n) => start_refusal(state, jobs, tie, limit, *n),
        Event::Look(n, path, seen) => look_refusal(state, jobs, *n, path, seen),
        Event::Put(n, path, _contents, time) => put_refusal(state, jobs, *n, path, *time),
        Event::Erase(n, path) => erase_refusal(state, jobs, *n, path),
        Event::Finish(n) => finish_refusal(state, jobs, *n),
    }
}
