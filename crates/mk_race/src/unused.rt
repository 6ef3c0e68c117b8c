//! The jobs of a build, with its footprints that lie unused.
//!
//! A recorder that ran another makefile, or that spells a target in another way, writes footprints that no recipe of this
//! build takes. Where such a target is a node that nothing makes, a race may hide behind it: so it is noted, or refused.
ghost use Rattle.std.specs.Prelude.{◌≡◌, ◌++◌, ◌<◌, IfOk, Ok, OnOk, length};
ghost use Rattle.std.specs.Option.{option_to_list};
ghost use Rattle.mk_name.specs.Gives.{Answers, Gives};
ghost use Rattle.mk_jobs.specs.Plan.{node_at};
ghost use Rattle.mk_name.specs.declared.fault.Halt.TheVariants as halts;
ghost use Rattle.mk_race.specs.Parts.{ForAllRead};
ghost use Rattle.mk_race.specs.Stages.{AreListed, IsPrepared, Then};
ghost use Rattle.mk_race.specs.Unused as spec;

use crate::planning::{Planned, plan_read};
use crate::preparing::{Prepared, jobs_with};
use mk_foot::footprints::Footprints;
use mk_jobs::jobs::Jobs;
use mk_jobs::plan::Plan;
use mk_jobs::recipe::has_recipe;
use mk_name::fault::{Fault, Halt, Kind, Source};
use mk_name::name::Name;
use mk_read::input::Build;
use mk_rules::rulebook::Rulebook;
use std::alloc::{AllocError, Global};

/// The nodes that nothing makes, though their names are targets of footprints: the first of them, and how many they are.
#[derive(Debug, Drop)]
pub struct Unused {
    /// The number of the first.
    pub node: u32,
    /// The name of the first.
    pub name: Name,
    /// How many they are, at least one.
    pub count: usize,
}

/// The jobs of a build, and its footprints that lie unused, where there are any.
#[derive(Debug, Drop)]
pub struct Noted {
    pub prepared: Prepared,
    pub unused: Option<Unused>,
}

/// The jobs of a build, with its footprints that lie unused.
///
/// The first fault is answered: those of the plan (see [`plan_of`](crate::planning::plan_of)), then of the footprints by their lines, and then of the nodes with
/// their footprints; after these comes, where it is strict, `UnusedFootprint` in the jobs at the first node that nothing makes though
/// its name is a footprint's target, which it names. The only other error is out of memory.
pub fn note_build(alloc: Global, build: Build<'_>, strict: bool) -> Result<Noted, Halt>
    ensures answer { ForAllRead build.entry (λ texts lines. Answers result (spec.IsNotedBy strict texts lines)) }
    ensures prepared { IfOk result (λ noted. ForAllRead build.entry (λ texts lines. IsPrepared texts lines (Ok noted.prepared))) }
    ensures listed { IfOk result (λ noted. AreListed noted.prepared) }
    ensures read { IfOk result (λ noted. spec.WereRead build.entry.listing build.entry.footprints noted.prepared) }
{
    let noted = note_read(alloc, build)?;
    if !strict {
        return Ok(noted);
    }
    strictly(alloc, noted)
}

/// The jobs of a build, where no footprints lie unused; else the fault of these.
fn strictly(alloc: Global, noted: Noted) -> Result<Noted, Halt>
    ensures answer { Gives result (spec.strictly noted noted.unused) }
    ensures prepared { IfOk result (λ given. given.prepared ≡ noted.prepared) }
{
    let Noted { prepared, unused } = noted;
    match unused {
        Some(unused) => Err(unused_fault(alloc, unused)?),
        None => Ok(Noted {
            prepared,
            unused: None,
        }),
    }
}

/// The fault of footprints that lie unused. The only error is out of memory.
fn unused_fault(alloc: Global, unused: Unused) -> Result<Halt, AllocError>
    ensures { IfOk result (λ halt. halt ≡ halts.Fault (spec.unused_fault unused)) }
{
    let place = u64::from(unused.node);
    let fault = Fault::naming(
        alloc,
        Kind::UnusedFootprint,
        Source::Jobs,
        place,
        unused.name,
    )?;
    Ok(Halt::Fault(fault))
}

/// The jobs of a build, with its footprints that lie unused, which are no fault.
pub(crate) fn note_read(alloc: Global, build: Build<'_>) -> Result<Noted, Halt>
    ensures answer { ForAllRead build.entry (λ texts lines. Answers result (spec.IsNoted texts lines)) }
    ensures listed { IfOk result (λ noted. AreListed noted.prepared) }
    ensures read { IfOk result (λ noted. spec.WereRead build.entry.listing build.entry.footprints noted.prepared) }
{
    let Build {
        input,
        listing,
        footprints,
    } = build;
    let planned = plan_read(alloc, &input, listing)?;
    noted_on(alloc, planned, footprints)
}

/// The jobs of what was planned, with footprints that were read ahead, and what is said of those that lie unused.
fn noted_on(
    alloc: Global,
    planned: Planned,
    footprints: Result<Footprints, Fault>,
) -> Result<Noted, Halt>
    ensures { Answers result (spec.AreNotedOn planned footprints) }
{
    let Planned {
        root,
        listing,
        book,
        plan,
    } = planned;
    match noted_with(alloc, &book, plan, footprints) {
        Ok((jobs, unused)) => Ok(Noted {
            prepared: Prepared {
                root,
                listing,
                jobs,
            },
            unused,
        }),
        Err(halt) => Err(halt),
    }
}

/// The jobs of a plan, whose book this is, with footprints that were read ahead, and what is said of those that lie unused.
fn noted_with(
    alloc: Global,
    book: &Rulebook,
    plan: Plan,
    footprints: Result<Footprints, Fault>,
) -> Result<(Jobs, Option<Unused>), Halt>
    ensures { Answers result (Then footprints (spec.AreNotedOf book.now plan)) }
{
    match footprints {
        Ok(footprints) => noted_jobs(alloc, book, plan, footprints),
        Err(fault) => Err(Halt::Fault(fault)),
    }
}

/// The jobs of a plan, whose book this is, with these footprints, and what is said of those that lie unused.
fn noted_jobs(
    alloc: Global,
    book: &Rulebook,
    plan: Plan,
    footprints: Footprints,
) -> Result<(Jobs, Option<Unused>), Halt>
    ensures { Answers result (spec.AreNotedOf book.now plan footprints) }
{
    let unused = unused_by(alloc, &plan, &footprints)?;
    let jobs = jobs_with(alloc, plan, book, footprints)?;
    Ok((jobs, unused))
}

/// What is said of the nodes of a plan that nothing makes though their names are targets of these footprints. The only error is
/// out of memory.
fn unused_by(
    alloc: Global,
    plan: &Plan,
    footprints: &Footprints,
) -> Result<Option<Unused>, AllocError>
    ensures { IfOk result (spec.AreSaidBy plan.now.nodes (spec.unused_in footprints.now plan.now.nodes)) }
{
    let numbers = unused_in(alloc, plan, footprints)?;
    match numbers.first() {
        Some(first) => {
            let name = plan.name(*first).copy(alloc)?;
            Ok(Some(Unused {
                node: *first,
                name,
                count: numbers.len(),
            }))
        }
        None => Ok(None),
    }
}

/// The numbers of these nodes, rising. The only error is out of memory.
fn unused_in(alloc: Global, plan: &Plan, footprints: &Footprints) -> Result<Vec<u32>, AllocError>
    ensures { IfOk result (λ numbers. numbers.items ≡ spec.unused_in footprints.now plan.now.nodes) }
{
    let mut numbers = Vec::new(alloc);
    for n in 0..plan.count() {
        add_unused(&mut numbers, plan, n, footprints)?;
    }
    Ok(numbers)
}

/// Adds the number of a node, where nothing makes it though its name is a target of these footprints.
fn add_unused(
    numbers: &mut Vec<u32>,
    plan: &Plan,
    n: u32,
    footprints: &Footprints,
) -> Result<(), AllocError>
    requires { n < length plan.now.nodes }
    ensures { OnOk result (numbers.new.items ≡ numbers.old.items
        ++ option_to_list (spec.unused_number footprints.now (n, node_at plan.now.nodes n))) }
{
    if is_unused(plan, n, footprints) {
        numbers.push(n)?;
    }
    Ok(())
}

/// Whether nothing makes a node, though its name is a target of these footprints.
fn is_unused(plan: &Plan, n: u32, footprints: &Footprints) -> bool
    requires { n < length plan.now.nodes }
    ensures { result ≡ spec.is_unused footprints.now (node_at plan.now.nodes n) }
{
    if has_recipe(plan.maker(n)) {
        return false;
    }
    footprints.has(plan.name(n))
}
