//! Whether a second build, which finds what the first one made, is planned as the first.
ghost use Rattle.std.specs.Prelude.{◌≡◌, ◌<◌, ◌↔◌, [], IfOk, IsTrue, OnOk, Some, length, map};
ghost use Rattle.mk_name.specs.Reported.{Reported};
ghost use Rattle.mk_name.specs.declared.fault.Halt.TheVariants as halts;
ghost use Rattle.mk_jobs.specs.Jobs as nodes;
ghost use Rattle.mk_text.specs.Listing.{put_among};
ghost use Rattle.mk_race.specs.Again as spec;
ghost use Rattle.mk_race.specs.Stages.{texts_with};

use crate::planning::plan_read;
use crate::preparing::Prepared;
use mk_jobs::jobs::Jobs;
use mk_jobs::plan::Plan;
use mk_name::fault::Halt;
use mk_read::input::Input;
use mk_text::listing::Listing;
use std::alloc::{AllocError, Global};

/// What a second build does otherwise than the first.
#[derive(Clone, Copy, Debug)]
pub enum BuildChange {
    /// It lacks the node of this number, or makes it in another way.
    Node(u32),
    /// Its texts are refused.
    Refused,
}

/// The first change of a second build, if it has one: the build is planned again with the names of the products of these jobs among
/// those that were listed. A product is a node that is not phony, and whose recipe may write its own file. The only error is out of
/// memory.
pub(crate) fn change_of(
    alloc: Global,
    input: &Input<'_>,
    prepared: &Prepared,
) -> Result<Option<BuildChange>, AllocError>
    ensures { IfOk result (spec.IsChange (texts_with input.now []) prepared.now) }
{
    let listing = listing_again(alloc, &prepared.listing, &prepared.jobs)?;
    change_with(alloc, input, listing, &prepared.jobs)
}

/// The first change of a build with this listing, if it has one. The only error is out of memory.
fn change_with(
    alloc: Global,
    input: &Input<'_>,
    listing: Listing,
    jobs: &Jobs,
) -> Result<Option<BuildChange>, AllocError>
    ensures { IfOk result (spec.IsChangeWith (texts_with input.now []) listing jobs.now) }
{
    match plan_read(alloc, input, Ok(listing)) {
        Ok(planned) => Ok(first_change(jobs, &planned.plan)),
        Err(halt) => refusal_of(halt),
    }
}

/// The change of a build whose texts are refused; out of memory is none.
fn refusal_of(halt: Halt) -> Result<Option<BuildChange>, AllocError>
    ensures { IfOk result (λ change. (reported : Reported) × (halt ≡ halts.Fault reported)
        × (change ≡ Some BuildChange.Refused)) }
{
    match halt {
        Halt::Fault(_fault) => Ok(Some(BuildChange::Refused)),
        Halt::Memory => Err(AllocError),
    }
}

/// The names that were listed, with those of all products among them. The only error is out of memory.
fn listing_again(alloc: Global, listing: &Listing, jobs: &Jobs) -> Result<Listing, AllocError>
    ensures { IfOk result (λ again. again ≡ spec.listed_again listing.now jobs.now) }
{
    let mut again = listing.copy(alloc)?;
    for n in 0..jobs.count() {
        add_product(&mut again, alloc, jobs, n)?;
    }
    Ok(again)
}

/// Adds the name of a node, if it is a product. The only error is out of memory.
fn add_product(listing: &mut Listing, alloc: Global, jobs: &Jobs, n: u32) -> Result<(), AllocError>
    requires { n < nodes.node_count jobs.now }
    ensures { OnOk result (listing.new ≡ put_among listing.old (spec.product_name jobs.now n)) }
{
    if !is_product(jobs, n) {
        return Ok(());
    }
    let name = jobs.name(n).copy(alloc)?;
    listing.add(name)
}

/// Whether a node is a product.
fn is_product(jobs: &Jobs, n: u32) -> bool
    requires { n < nodes.node_count jobs.now }
    ensures { result ≡ spec.is_product jobs.now n }
{
    jobs.may_write(n, jobs.name(n)) && !jobs.is_phony(n)
}

/// The first node of jobs that a plan does not keep.
fn first_change(jobs: &Jobs, plan: &Plan) -> Option<BuildChange>
    ensures { spec.IsChangeTo jobs.now plan.now.nodes result }
{
    for n in 0..jobs.count() {
        if !is_kept(jobs, plan, n) {
            return Some(BuildChange::Node(n));
        }
    }
    None
}

/// Whether a plan keeps a node of jobs.
fn is_kept(jobs: &Jobs, plan: &Plan, n: u32) -> bool
    requires { n < nodes.node_count jobs.now }
    ensures { IsTrue result ↔ spec.KeepsNode jobs.now plan.now.nodes n }
{
    match plan.number(jobs.name(n)) {
        Some(m) => is_alike(jobs, n, plan, m),
        None => false,
    }
}

/// Whether a node of jobs and one of a plan are made in the same way, of prerequisites of the same names.
fn is_alike(jobs: &Jobs, n: u32, plan: &Plan, m: u32) -> bool
    requires first { n < nodes.node_count jobs.now }
    requires second { m < length plan.now.nodes }
    ensures { IsTrue result ↔ spec.IsAlike jobs.now n plan.now.nodes m }
{
    jobs.maker(n) == plan.maker(m)
        && have_same_names(jobs, jobs.prerequisites(n), plan, plan.prerequisites(m))
}

/// Whether these nodes of jobs have the names of those nodes of a plan, one by one.
fn have_same_names(jobs: &Jobs, first: &[u32], plan: &Plan, second: &[u32]) -> bool
    ensures { IsTrue result ↔ (map (nodes.name_of jobs.now) first.now ≡ map (spec.name_in plan.now.nodes) second.now) }
{
    if first.len() != second.len() {
        return false;
    }
    for i in 0..first.len() {
        if !is_same(name_of(jobs, first[i]), name_in(plan, second[i])) {
            return false;
        }
    }
    true
}

/// Whether two names are the same.
fn is_same(one: &[u8], other: &[u8]) -> bool
    ensures { IsTrue result ↔ (one.now ≡ other.now) }
{
    one == other
}

/// The name of a node of jobs. What is no node has none.
fn name_of(jobs: &Jobs, n: u32) -> &[u8]
    ensures { result.now ≡ nodes.name_of jobs.now n }
{
    if n >= jobs.count() {
        return b"";
    }
    jobs.name(n).as_bytes()
}

/// The name of a node of a plan. What is no node has none.
fn name_in(plan: &Plan, n: u32) -> &[u8]
    ensures { result.now ≡ spec.name_in plan.now.nodes n }
{
    if n >= plan.count() {
        return b"";
    }
    plan.name(n).as_bytes()
}
