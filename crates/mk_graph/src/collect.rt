//! All that some goals need: their names, the prerequisites of the rules that name them as targets, and their sources.
ghost use Rattle.std.specs.Prelude.{◌≡◌, ◌<◌, ◌≤◌, List, ℕ, length, map, replicate, None, IfOk, OnOk, IfSome, IfNone};
ghost use Rattle.std.specs.List.{All};
ghost use Rattle.std.specs.Option.{option_to_list};
ghost use Rattle.mk_name.specs.Names.{Name, kept, same_name};
ghost use Rattle.mk_graph.specs.Collected.{Collected, Reads, SourceStands};
ghost use Rattle.mk_graph.specs.Graph.{AreNodes};
ghost use Rattle.mk_graph.specs.Looked.{looked_of};
ghost use Rattle.mk_graph.specs.Makers.{inferred_source, needs};
ghost use Rattle.mk_graph.specs.SourceIndex.{IsSourceIndex};
ghost use Rattle.mk_jobs.specs.Numbered.{name_at};

use crate::index::{SourceIndex, source_index};
use crate::inference::inferred_source;
use crate::looked::{Looked, look};
use mk_jobs::numbering::Numbering;
use mk_name::name::Name;
use mk_rules::rulebook::Rulebook;
use mk_text::listing::Listing;
use std::alloc::{AllocError, Global};

/// What the goals need.
#[derive(Debug, Drop)]
pub struct Found<'a> {
    /// The names, in the order in which they were found.
    pub names: Numbering,
    /// What was looked up of each name.
    pub looked: Vec<Looked<'a>>,
    /// The prerequisites of the rules that name one of them as a target, by their places in the book.
    pub entries: Vec<Option<Vec<usize>>>,
    /// The numbers of the sources that inference rules make them from.
    pub sources: Vec<Option<usize>>,
    /// The numbers of the goals.
    pub goals: Vec<usize>,
}

/// As many rules, none of them read.
fn none_read(alloc: Global, count: usize) -> Result<Vec<Option<Vec<usize>>>, AllocError>
    ensures { IfOk result (λ entries. entries.items ≡ replicate count None) }
{
    let mut entries = Vec::new(alloc);
    for _ in 0..count {
        entries.push(None)?;
    }
    Ok(entries)
}

/// Reads the rules at some places, where that is not done yet.
fn read_entries(
    alloc: Global,
    book: &Rulebook,
    places: &[usize],
    names: &mut Numbering,
    entries: &mut [Option<Vec<usize>>],
) -> Result<(), AllocError>
    requires within { All (λ place. place < length book.now.rules) places.now }
    requires long { length entries.old ≡ length book.now.rules }
    ensures { OnOk result
        (Reads book.now.rules places.now names.old entries.old names.new entries.new) }
{
    for place in places {
        let place = *place;
        if entries[place].is_none() {
            let numbers = names.put_all(alloc, book.rule_prerequisites(place))?;
            entries[place] = Some(numbers);
        }
    }
    Ok(())
}

/// The number of the inferred source of the name with a number, if it has one. A new source is put last.
fn read_source(
    alloc: Global,
    book: &Rulebook,
    listing: &Listing,
    index: &SourceIndex,
    looked: &Looked<'_>,
    names: &mut Numbering,
    number: usize,
) -> Result<Option<usize>, AllocError>
    requires index { IsSourceIndex book.now listing.now index.now }
    requires looked { looked.now ≡ looked_of book.now listing.now (name_at names.old number) }
    requires number { number < length names.old }
    ensures kept { let source = inferred_source book.now listing.now (name_at names.old number) in
        OnOk result (names.new ≡ kept same_name names.old (option_to_list source)) }
    ensures stands { let source = inferred_source book.now listing.now (name_at names.old number) in
        IfOk result (λ found. SourceStands names.new found source) }
{
    match inferred_source(alloc, book, listing, index, looked, names.name(number))? {
        Some(source) => Ok(Some(names.put(alloc, &source)?)),
        None => Ok(None),
    }
}

/// All that the goals need, or nothing where this is more than `limit` names, by an index of the sources.
fn collect_by<'a>(
    alloc: Global,
    book: &'a Rulebook,
    listing: &Listing,
    index: &SourceIndex,
    goals: &[Name],
    limit: usize,
) -> Result<Option<Found<'a>>, AllocError>
    requires index { IsSourceIndex book.now listing.now index.now }
    ensures found { IfOk result
        (λ found. IfSome found
        (λ f. Collected book.now listing.now goals.now f.names f.entries.items f.sources.items
        f.goals.items (length f.names))) }
    ensures looked { IfOk result
        (λ found. IfSome found (λ f. f.looked.items ≡ map (looked_of book.now listing.now) f.names)) }
    ensures few { IfOk result (λ found. IfSome found (λ f. length f.names ≤ limit)) }
    ensures too_large { IfOk result
        (λ found. IfNone found
        ((names : List Name) × AreNodes same_name (needs book.now listing.now) goals.now names ×
        (limit < length names))) }
{
    let mut names = Numbering::of_set(book.empty_set(alloc));
    let starts = names.put_all(alloc, goals)?;
    let mut entries = none_read(alloc, book.rule_count())?;
    let mut looked = Vec::new(alloc);
    let mut sources = Vec::new(alloc);
    let mut read = 0;
    'all: while read < names.count() {
        if names.count() > limit {
            return Ok(None);
        }
        let of = look(book, listing, names.name(read));
        read_entries(alloc, book, of.rules, &mut names, &mut entries)?;
        sources.push(read_source(alloc, book, listing, index, &of, &mut names, read)?)?;
        looked.push(of)?;
        read += 1;
    }
    Ok(Some(Found {
        names,
        looked,
        entries,
        sources,
        goals: starts,
    }))
}

/// All that the goals need, or nothing where this is more than `limit` names. The only error is out of memory.
pub fn collect<'a>(
    alloc: Global,
    book: &'a Rulebook,
    listing: &Listing,
    goals: &[Name],
    limit: usize,
) -> Result<Option<Found<'a>>, AllocError>
    ensures found { IfOk result
        (λ found. IfSome found
        (λ f. Collected book.now listing.now goals.now f.names f.entries.items f.sources.items
        f.goals.items (length f.names))) }
    ensures looked { IfOk result
        (λ found. IfSome found (λ f. f.looked.items ≡ map (looked_of book.now listing.now) f.names)) }
    ensures few { IfOk result (λ found. IfSome found (λ f. length f.names ≤ limit)) }
    ensures too_large { IfOk result
        (λ found. IfNone found
        ((names : List Name) × AreNodes same_name (needs book.now listing.now) goals.now names ×
        (limit < length names))) }
{
    let index = source_index(alloc, book, listing, goals)?;
    collect_by(alloc, book, listing, &index, goals, limit)
}
