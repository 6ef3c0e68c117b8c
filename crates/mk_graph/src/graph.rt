//! The graph of all that some goals need, by numbers.
ghost use Rattle.std.specs.Prelude.{◌≡◌, ◌≤◌, map, IfOk, IfSome, IfNone};
ghost use Rattle.mk_name.specs.Names.{same_name};
ghost use Rattle.mk_graph.specs.Collected.{IsGraph};
ghost use Rattle.mk_graph.specs.Graph.{HasMoreThan};
ghost use Rattle.mk_graph.specs.Looked.{looked_of};
ghost use Rattle.mk_graph.specs.Makers.{maker_of, needs};

use crate::collect::collect;
use crate::looked::Looked;
use crate::makers::makers_of;
use crate::rows::{distinct_entries, rows_of};
use mk_jobs::maker::Maker;
use mk_jobs::numbering::Numbering;
use mk_name::name::Name;
use mk_rules::rulebook::Rulebook;
use mk_text::listing::Listing;
use std::alloc::{AllocError, Global};

/// The names that some goals need, and for each what was looked up, the numbers of what it needs and what makes it.
#[derive(Debug, Drop)]
pub struct Graph<'a> {
    pub names: Numbering,
    pub looked: Vec<Looked<'a>>,
    pub rows: Vec<Vec<usize>>,
    pub makers: Vec<Maker>,
    pub goals: Vec<usize>,
}

/// All that the goals need, or nothing where this is more than so many names or edges. The only error is out of memory.
pub fn graph_of<'a>(
    alloc: Global,
    book: &'a Rulebook,
    listing: &Listing,
    goals: &[Name],
    max_names: usize,
    max_edges: usize,
) -> Result<Option<Graph<'a>>, AllocError>
    requires { max_edges ≤ 1000000 }
    ensures found { IfOk result
        (λ found. IfSome found
        (λ g. IsGraph book.now listing.now goals.now g.names g.rows.items g.goals.items)) }
    ensures looked { IfOk result
        (λ found. IfSome found
        (λ g. g.looked.items ≡ map (looked_of book.now listing.now) g.names)) }
    ensures makers { IfOk result
        (λ found. IfSome found
        (λ g. g.makers.items ≡ map (maker_of book.now listing.now) g.names)) }
    ensures small { IfOk result
        (λ found. IfSome found
        (λ g. HasMoreThan same_name (needs book.now listing.now) goals.now max_names max_edges
        → ⊥)) }
    ensures too_large { IfOk result
        (λ found. IfNone found
        (HasMoreThan same_name (needs book.now listing.now) goals.now max_names max_edges)) }
{
    let Some(found) = collect(alloc, book, listing, goals, max_names)? else {
        return Ok(None);
    };
    let mut marks = vec![in alloc; false; found.names.count()]?;
    let seen = marks.as_mut_slice();
    let entries = distinct_entries(alloc, seen, found.entries.as_slice())?;
    let looked = found.looked.as_slice();
    let sources = found.sources.as_slice();
    let Some(rows) = rows_of(
        alloc,
        book,
        listing,
        &found.names,
        looked,
        entries.as_slice(),
        sources,
        seen,
        max_edges,
    )?
    else {
        return Ok(None);
    };
    let makers = makers_of(alloc, book, listing, &found.names, looked, sources)?;
    Ok(Some(Graph {
        names: found.names,
        looked: found.looked,
        rows,
        makers,
        goals: found.goals,
    }))
}
