//! The plan of a graph by numbers: its nodes in serial order, each with its name, its maker and what it needs.
ghost use Rattle.std.specs.Prelude.{◌≡◌, ◌<◌, ◌≤◌, ℕ, length, map, get_or, nat_eq, IsTrue, IfOk};
ghost use Rattle.std.specs.List.{sum_by};
ghost use Rattle.mk_name.specs.Names.{has, IsDistinct};
ghost use Rattle.mk_jobs.specs.Numbered.{name_at};
ghost use Rattle.mk_jobs.specs.Plan.{HaveNames, edge_limit, node_limit, with_names};
ghost use Rattle.mk_graph.specs.Assembled.{node_of, IsAssembled, IsNumbering};
ghost use Rattle.mk_graph.specs.Looked.{looked_of};
ghost use Rattle.mk_graph.specs.Makers.{maker_of};
ghost use Rattle.mk_graph.specs.Rows.{row, StandAfterNeeds};

use crate::graph::Graph;
use mk_jobs::plan::{NumberedNode, Plan};
use mk_rules::rulebook::Rulebook;
use mk_text::listing::Listing;
use std::alloc::{AllocError, Global};

/// The place of each number in the order.
fn places_in(alloc: Global, order: &[usize], count: usize) -> Result<Vec<u32>, AllocError>
    requires few { length order.now ≤ node_limit }
    requires within { (n : ℕ) → IsTrue (has nat_eq order.now n) → n < count }
    requires distinct { IsDistinct nat_eq order.now }
    ensures placed { IfOk result (λ places. IsNumbering order.now places.items) }
    ensures long { IfOk result (λ places. length places.items ≡ count) }
{
    let mut places = vec![in alloc; 0u32; count]?;
    for place in 0..order.len() {
        places[order[place]] = place as u32;
    }
    Ok(places)
}

/// The places of some numbers.
fn placed(alloc: Global, numbers: &[usize], places: &[u32]) -> Result<Vec<u32>, AllocError>
    requires { (n : ℕ) → IsTrue (has nat_eq numbers.now n) → n < length places.now }
    ensures { IfOk result (λ found. found.items ≡ map (λ n. get_or places.now n 0) numbers.now) }
{
    let mut found = Vec::new(alloc);
    for number in numbers {
        found.push(places[*number])?;
    }
    Ok(found)
}

/// The nodes of a graph in an order. Only the contract speaks of the book and of the listing.
fn nodes_of(
    alloc: Global,
    book: &Rulebook,
    listing: &Listing,
    graph: &Graph<'_>,
    places: &[u32],
    order: &[usize],
) -> Result<Vec<NumberedNode>, AllocError>
    requires within { (n : ℕ) → IsTrue (has nat_eq order.now n) → n < length graph.now.names }
    requires looked { graph.now.looked.items ≡ map (looked_of book.now listing.now) graph.now.names }
    requires makers { graph.now.makers.items ≡ map (maker_of book.now listing.now) graph.now.names }
    requires rows { length graph.now.rows.items ≡ length graph.now.names }
    requires places { (i n : ℕ) → IsTrue (has nat_eq (row graph.now.rows.items i) n) → n < length places.now }
    ensures nodes { IfOk result
        (λ nodes. with_names graph.now.names nodes.items ≡ map
        (λ n. node_of book.now listing.now (name_at graph.now.names n)
        (map (λ p. get_or places.now p 0) (row graph.now.rows.items n))) order.now) }
    ensures named { IfOk result (λ nodes. HaveNames graph.now.names nodes.items) }
{
    let rows = graph.rows.as_slice();
    let looked = graph.looked.as_slice();
    let makers = graph.makers.as_slice();
    let mut nodes = Vec::new(alloc);
    for number in order {
        let number = *number;
        let prerequisites = placed(alloc, rows[number].as_slice(), places)?;
        let of = &looked[number];
        nodes.push(NumberedNode {
            name: number,
            prerequisites,
            maker: makers[number],
            phony: of.phony,
            listed: of.listed,
        })?;
    }
    Ok(nodes)
}

/// The plan of a graph whose nodes all stand in this order. The names keep their numbers. Only the contract speaks of the
/// listing.
pub fn assemble(
    alloc: Global,
    book: &Rulebook,
    listing: &Listing,
    graph: Graph<'_>,
    order: &[usize],
) -> Result<Plan, AllocError>
    requires few { length order.now ≤ node_limit }
    requires few_edges { sum_by (λ n. length (row graph.rows.items n)) order.now ≤ edge_limit }
    requires within { (n : ℕ) → IsTrue (has nat_eq order.now n) → n < length graph.names }
    requires all { (n : ℕ) → n < length graph.names → IsTrue (has nat_eq order.now n) }
    requires distinct { IsDistinct nat_eq order.now }
    requires looked { graph.looked.items ≡ map (looked_of book.now listing.now) graph.names }
    requires makers { graph.makers.items ≡ map (maker_of book.now listing.now) graph.names }
    requires rows { length graph.rows.items ≡ length graph.names }
    requires inside { (i n : ℕ) → IsTrue (has nat_eq (row graph.rows.items i) n) → n < length graph.names }
    requires rising { StandAfterNeeds (row graph.rows.items) order.now }
    ensures { IfOk result
        (λ plan. IsAssembled book.now listing.now graph.entry.names graph.entry.rows.items order.now plan) }
{
    let places = places_in(alloc, order, graph.names.count())?;
    let nodes = nodes_of(alloc, book, listing, &graph, places.as_slice(), order)?;
    Ok(Plan::numbered(nodes, graph.names, places, book.wait_uses()))
}
