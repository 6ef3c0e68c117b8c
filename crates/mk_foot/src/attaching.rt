//! From a plan and footprints to jobs, or to the first node at fault.
ghost use Rattle.std.specs.Prelude.{◌≡◌, ◌<◌, ◌∷◌, [], IfErr, IfOk, Ok, get_or, length, map};
ghost use Rattle.std.specs.Cmp.Lexicographic.{slice_cmp};
ghost use Rattle.std.specs.List.Sorted.{IsStrictlySortedBy};
ghost use Rattle.std.specs.Ordering.{nat_cmp};
ghost use Rattle.mk_name.specs.Gives.{Gives, Halts};
ghost use Rattle.mk_name.specs.declared.fault.Halt.TheVariants as halts;
ghost use Rattle.mk_rules.specs.Book.{targets_of};
ghost use Rattle.mk_jobs.specs.Plan.{names_of, nobody};
ghost use Rattle.mk_jobs.specs.Rows.{with_rows};
ghost use Rattle.mk_jobs.specs.Shape.{AreNamed, IsRising, IsWellFormed};
ghost use Rattle.mk_foot.specs.Footprints.{LeavesOthers};
ghost use Rattle.mk_foot.specs.Attached as spec;

use crate::footprints::{Footprint, Footprints, in_order};
use crate::owned::owned_names;
use mk_jobs::jobs::Jobs;
use mk_jobs::plan::Plan;
use mk_jobs::recipe::is_live;
use mk_name::fault::{Fault, Halt, Kind, Source};
use mk_name::name::Name;
use mk_path::path::Path;
use mk_path::taken::least_covered;
use mk_rules::rulebook::Rulebook;
use mk_text::root::Root;
use std::alloc::{AllocError, Global};
use std::marker::Model;

/// The paths that the recipe of one node reads and writes, rising.
#[derive(Debug, Drop)]
struct Row {
    reads: Vec<Path>,
    writes: Vec<Path>,
}

impl Model for Row {
    ghost use Rattle.mk_foot.specs.Footprints as spec;

    ghost Value = { spec.Footprint };

    ghost view = { λ a. record { reads = a.reads.items; writes = a.writes.items } };
}

/// The paths that the recipes of all nodes read and write, and the root that they were read below.
#[derive(Debug, Drop)]
struct Rows {
    root: Root,
    reads: Vec<Vec<Path>>,
    writes: Vec<Vec<Path>>,
}

/// The jobs of a plan with these footprints (profile). The rulebook is that of the plan.
///
/// The first of these faults is answered, each in the jobs at its node's number: `MissingFootprint` with the target of a
/// live recipe that no footprint names; `WritesTarget` with the target of a live recipe and the least name beside its own
/// that is covered by what it writes, where a node or a rule's target has that name. Recipes that are not live need no
/// footprint, and read and write nothing. With a fault, and where memory ran out, the plan comes back. The footprints are used
/// up: their paths are moved into the jobs.
pub fn attach(
    alloc: Global,
    plan: Plan,
    rulebook: &Rulebook,
    footprints: Footprints,
) -> Result<Jobs, (Plan, Halt)>
    ensures jobs { IfOk result (λ jobs.
        spec.attached plan (targets_of rulebook.now.rules) footprints ≡ Ok jobs) }
    ensures fault { IfErr result (λ refused.
        Halts refused.1 (spec.attached plan (targets_of rulebook.now.rules) footprints)) }
    ensures plan { IfErr result (λ refused. refused.0 ≡ plan) }
{
    let rows = match rows_beside(alloc, &plan, rulebook, footprints) {
        Ok(rows) => rows,
        Err(halt) => return Err((plan, halt)),
    };
    match Jobs::new(alloc, plan, rows.root, rows.reads, rows.writes) {
        Ok(jobs) => Ok(jobs),
        Err(plan) => Err((plan, Halt::Memory)),
    }
}

/// What the nodes of a plan read and write, or the first fault. The rulebook is that of the plan.
fn rows_beside(
    alloc: Global,
    plan: &Plan,
    rulebook: &Rulebook,
    footprints: Footprints,
) -> Result<Rows, Halt>
    ensures rows { IfOk result (λ rows. spec.attached plan.now (targets_of rulebook.now.rules) footprints
        ≡ Ok (with_rows plan.now rows.root rows.reads.items rows.writes.items)) }
    ensures shape { IfOk result (λ rows.
        IsWellFormed (with_rows plan.now rows.root rows.reads.items rows.writes.items)) }
    ensures fault { IfErr result (λ halt.
        Halts halt (spec.attached plan.now (targets_of rulebook.now.rules) footprints)) }
{
    let owned = owned_names(alloc, plan, rulebook)?;
    rows_of(alloc, plan, owned.as_slice(), footprints)
}

/// What the nodes of a plan read and write, or the first fault, where these names belong to recipes.
fn rows_of(
    alloc: Global,
    plan: &Plan,
    owned: &[&Name],
    mut footprints: Footprints,
) -> Result<Rows, Halt>
    requires rising { IsStrictlySortedBy (slice_cmp nat_cmp) (map (λ name. name.now) owned.now) }
    requires whole { spec.HasAll (map (λ name. name.now) owned.now) (names_of plan.now.nodes) }
    ensures rows { IfOk result (λ rows. spec.attached_beside (map (λ name. name.now) owned.now) plan.now footprints
        ≡ Ok (with_rows plan.now rows.root rows.reads.items rows.writes.items)) }
    ensures shape { IfOk result (λ rows.
        IsWellFormed (with_rows plan.now rows.root rows.reads.items rows.writes.items)) }
    ensures fault { IfErr result (λ halt.
        Halts halt (spec.attached_beside (map (λ name. name.now) owned.now) plan.now footprints)) }
{
    let mut reads = Vec::new(alloc);
    let mut writes = Vec::new(alloc);
    for n in 0..plan.count() {
        let row = row_of(alloc, plan, n, owned, &mut footprints)?;
        reads.push(row.reads)?;
        writes.push(row.writes)?;
    }
    Ok(Rows {
        root: footprints.into_root(),
        reads,
        writes,
    })
}

/// What a node reads and writes, or its fault, where these names belong to recipes. Its footprint is taken out.
fn row_of(
    alloc: Global,
    plan: &Plan,
    n: u32,
    owned: &[&Name],
    footprints: &mut Footprints,
) -> Result<Row, Halt>
    requires node { n < length plan.now.nodes }
    requires rising { IsStrictlySortedBy (slice_cmp nat_cmp) (map (λ name. name.now) owned.now) }
    ensures answer { Gives result (spec.node_answer (map (λ name. name.now) owned.now) footprints.old (n, get_or plan.now.nodes n nobody)) }
    ensures others { LeavesOthers footprints.old (get_or plan.now.nodes n nobody).name footprints.new }
    ensures rising { IfOk result (λ row. IsRising row.reads × IsRising row.writes) }
    ensures named { IfOk result (λ row. AreNamed row.reads × AreNamed row.writes) }
{
    if !is_live(plan, n) {
        return Ok(Row {
            reads: Vec::new(alloc),
            writes: Vec::new(alloc),
        });
    }
    let own = plan.name(n);
    match footprints.take(own) {
        Some(footprint) => live_row(alloc, n, own, owned, footprints.root(), footprint),
        None => Err(missing(alloc, n, own)?),
    }
}

/// What a live recipe with a footprint reads and writes, or its fault, where these names belong to recipes.
fn live_row(
    alloc: Global,
    n: u32,
    own: &Name,
    owned: &[&Name],
    root: &Root,
    footprint: Footprint,
) -> Result<Row, Halt>
    requires { IsStrictlySortedBy (slice_cmp nat_cmp) (map (λ name. name.now) owned.now) }
    ensures answer { Gives result (spec.live_answer root.now (map (λ name. name.now) owned.now) n own.now footprint) }
    ensures rising { IfOk result (λ row. IsRising row.reads × IsRising row.writes) }
    ensures named { IfOk result (λ row. AreNamed row.reads × AreNamed row.writes) }
{
    let Footprint { reads, writes } = footprint;
    let reads = in_order(alloc, reads)?;
    let writes = in_order(alloc, writes)?;
    if let Some(other) = least_covered(root, writes.as_slice(), owned, own) {
        let names = vec![in alloc; own.copy(alloc)?, other.copy(alloc)?]?;
        return Err(fault(Kind::WritesTarget, n, names));
    }
    Ok(Row { reads, writes })
}

/// The fault of a live recipe whose target no footprint names. The only error is out of memory.
fn missing(alloc: Global, n: u32, own: &Name) -> Result<Halt, AllocError>
    ensures { IfOk result (λ halt. halt ≡ halts.Fault (spec.reported Kind.MissingFootprint n (own.now ∷ []))) }
{
    let names = vec![in alloc; own.copy(alloc)?]?;
    Ok(fault(Kind::MissingFootprint, n, names))
}

/// A fault of a node.
fn fault(kind: Kind, n: u32, names: Vec<Name>) -> Halt
    ensures { result ≡ halts.Fault (spec.reported kind n names.items) }
{
    Halt::Fault(Fault::new(kind, Source::Jobs, u64::from(n), names))
}
