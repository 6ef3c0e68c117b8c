//! From a book of rules, a listing and some goals to a plan, or to what is wrong with the graph.
ghost use Rattle.std.specs.Prelude.{◌≡◌, map, IfErr, IfOk, OnOk};
ghost use Rattle.mk_name.specs.Gives.{Answers, HaltsAmong};
ghost use Rattle.mk_name.specs.declared.fault.Halt.TheVariants as halts;
ghost use Rattle.mk_graph.specs.Answer.{AllMade, Comes, IsAnswer, IsTooLarge, goals_of, graph_fault};
ghost use Rattle.mk_graph.specs.Collected.{IsGraph};
ghost use Rattle.mk_graph.specs.Looked.{looked_of};
ghost use Rattle.mk_graph.specs.Makers.{maker_of};
ghost use Rattle.mk_graph.specs.Rows.{row};
ghost use Rattle.mk_graph.specs.Walk.{IsOrder};

use crate::assembly::assemble;
use crate::faults::{cycle_of, least_unmade};
use crate::graph::{Graph, graph_of};
use crate::serial::{Walked, serial_order};
use mk_jobs::plan::{EDGE_LIMIT, NODE_LIMIT, Plan};
use mk_name::fault::{Fault, Halt, Kind, Source};
use mk_name::name::Name;
use mk_rules::rulebook::Rulebook;
use mk_text::listing::Listing;
use std::alloc::Global;

/// A fault of the graph.
fn graph_fault(kind: Kind, names: Vec<Name>) -> Halt
    ensures { result ≡ halts.Fault (graph_fault kind names.items) }
{
    Halt::Fault(Fault::new(kind, Source::Graph, 0, names))
}

/// The serial order of a graph that is not too large, or what is wrong with it: a name that nothing makes, or else a
/// cycle. The goals are those of the graph, and only the contract speaks of them.
fn order_of(
    alloc: Global,
    book: &Rulebook,
    listing: &Listing,
    goals: &[Name],
    graph: &Graph<'_>,
) -> Result<Vec<usize>, Halt>
    requires graph { IsGraph book.now listing.now goals.now graph.now.names graph.now.rows.items graph.now.goals.items }
    requires looked { graph.now.looked.items ≡ map (looked_of book.now listing.now) graph.now.names }
    requires makers { graph.now.makers.items ≡ map (maker_of book.now listing.now) graph.now.names }
    requires small { IsTooLarge book.now listing.now goals.now → ⊥ }
    ensures order { IfOk result
        (λ order. IsOrder (row graph.now.rows.items) graph.now.goals.items order.items) }
    ensures made { OnOk result (AllMade book.now listing.now goals.now) }
    ensures halt { IfErr result (λ halt. HaltsAmong halt (Comes book.now listing.now goals.now)) }
{
    let looked = graph.looked.as_slice();
    let makers = graph.makers.as_slice();
    if let Some(number) = least_unmade(book, listing, &graph.names, looked, makers) {
        let mut names = Vec::new(alloc);
        names.push(graph.names.name(number).copy(alloc)?)?;
        return Err(graph_fault(Kind::NoRule, names));
    }
    match serial_order(alloc, graph.rows.as_slice(), graph.goals.as_slice())? {
        Walked::Ring(ring) => {
            let names = cycle_of(alloc, &graph.names, ring.as_slice())?;
            Err(graph_fault(Kind::Cycle, names))
        }
        Walked::Order(order) => Ok(order),
    }
}

/// The plan for some goals, or what is wrong with their graph.
fn plan_for(alloc: Global, book: &Rulebook, listing: &Listing, goals: &[Name]) -> Result<Plan, Halt>
    ensures { Answers result (Comes book.now listing.now goals.now) }
{
    let Some(graph) = graph_of(alloc, book, listing, goals, NODE_LIMIT, EDGE_LIMIT)? else {
        return Err(graph_fault(Kind::GraphTooLarge, Vec::new(alloc)));
    };
    let order = order_of(alloc, book, listing, goals, &graph)?;
    Ok(assemble(alloc, book, listing, graph, order.as_slice())?)
}

/// The plan of all that the goals need; without goals, of what the default goal needs ("Target Rules"). A name needs its
/// prerequisites, and last the source from which an inference rule makes it, unless that is one of them ("Inference
/// Rules").
///
/// The first of these faults is answered, all of the graph at place 0: `NoGoal` without goals and without a default
/// goal; `GraphTooLarge` over 20,000 names or 200,000 edges (profile); `NoRule` with the byte-wise least name that
/// nothing makes and that is not phony, no target and not listed; `Cycle` with the names of a cycle, each needing the
/// next, from its least name round to that name. The only other error is out of memory.
pub fn plan(alloc: Global, book: &Rulebook, listing: &Listing, goals: &[Name]) -> Result<Plan, Halt>
    ensures { Answers result (IsAnswer book.now listing.now (goals_of book.now goals.now)) }
{
    if !goals.is_empty() {
        return plan_for(alloc, book, listing, goals);
    }
    match book.default_goal() {
        None => Err(graph_fault(Kind::NoGoal, Vec::new(alloc))),
        Some(goal) => {
            let mut own = Vec::new(alloc);
            own.push(goal.copy(alloc)?)?;
            plan_for(alloc, book, listing, own.as_slice())
        }
    }
}
