//! The prerequisites of each name as a row of numbers.
ghost use Rattle.std.specs.Prelude.{◌≡◌, ◌<◌, ◌≤◌, ◌+◌, List, [], ℕ, length, take, map, None, nat_eq, get_or, IsTrue, IfOk, OnOk, IfSome, IfNone};
ghost use Rattle.std.specs.List.{flat_map, sum_by};
ghost use Rattle.mk_name.specs.Names.{firsts, has, kept};
ghost use Rattle.mk_graph.specs.Rows.{row};
ghost use Rattle.mk_jobs.specs.Numbered.{name_at, Stand};
ghost use Rattle.mk_graph.specs.Graph.{count_edges};
ghost use Rattle.mk_graph.specs.Looked.{looked_of};
ghost use Rattle.mk_graph.specs.Makers.{needs};
ghost use Rattle.mk_graph.specs.Seen.{IsSeen, firsts_of, AllBelow, joined_of, needs_of, with_source};

use crate::looked::Looked;
use mk_jobs::numbering::Numbering;
use mk_rules::rulebook::Rulebook;
use mk_text::listing::Listing;
use std::alloc::{AllocError, Global};

/// Puts those numbers at the end of the row that do not stand in it. What stands in it is marked.
fn add_new(row: &mut Vec<usize>, seen: &mut [bool], numbers: &[usize]) -> Result<(), AllocError>
    requires within { (n : ℕ) → IsTrue (has nat_eq numbers.now n) → n < length seen.old }
    requires marked { IsSeen seen.old row.old.items }
    ensures row { OnOk result (row.new.items ≡ kept nat_eq row.old.items numbers.now) }
    ensures marked { OnOk result (IsSeen seen.new row.new.items) }
{
    for number in numbers {
        let number = *number;
        if !seen[number] {
            seen[number] = true;
            row.push(number)?;
        }
    }
    Ok(())
}

/// Takes away the marks of a row.
fn unmark(seen: &mut [bool], row: &[usize])
    requires within { (n : ℕ) → IsTrue (has nat_eq row.now n) → n < length seen.old }
    requires marked { IsSeen seen.old row.now }
    ensures { IsSeen seen.new [] }
{
    for number in row {
        seen[*number] = false;
    }
}

/// The numbers of some rules joined, each where it first stands. They are marked then.
fn joined(
    alloc: Global,
    seen: &mut [bool],
    entries: &[Vec<usize>],
    places: &[usize],
) -> Result<Vec<usize>, AllocError>
    requires within { (place n : ℕ) → IsTrue (has nat_eq (row entries.now place) n)
        → n < length seen.old }
    requires places { (place : ℕ) → IsTrue (has nat_eq places.now place)
        → place < length entries.now }
    requires marked { IsSeen seen.old [] }
    ensures row { IfOk result
        (λ joined. joined.items ≡ firsts nat_eq (flat_map (row entries.now) places.now)) }
    ensures marked { IfOk result (λ joined. IsSeen seen.new joined.items) }
{
    let mut joined = Vec::new(alloc);
    for place in places {
        add_new(&mut joined, seen, entries[*place].as_slice())?;
    }
    Ok(joined)
}

/// Puts the number of a source, if there is one, at the end of the row, unless it stands in it. What stands in the row
/// is marked.
fn add_source(
    row: &mut Vec<usize>,
    seen: &mut [bool],
    source: Option<usize>,
) -> Result<(), AllocError>
    requires within { IfSome source (λ n. n < length seen.old) }
    requires marked { IsSeen seen.old row.old.items }
    ensures row { OnOk result (row.new.items ≡ with_source row.old.items source) }
    ensures marked { OnOk result (IsSeen seen.new row.new.items) }
{
    match source {
        Some(number) => add_new(row, seen, &[number]),
        None => Ok(()),
    }
}

/// The numbers of some rules joined, each where it first stands, and then that of a source.
fn full_row(
    alloc: Global,
    seen: &mut [bool],
    entries: &[Vec<usize>],
    places: &[usize],
    source: Option<usize>,
) -> Result<Vec<usize>, AllocError>
    requires within { (place n : ℕ) → IsTrue (has nat_eq (row entries.now place) n)
        → n < length seen.old }
    requires places { (place : ℕ) → IsTrue (has nat_eq places.now place)
        → place < length entries.now }
    requires source { IfSome source (λ n. n < length seen.old) }
    requires marked { IsSeen seen.old [] }
    ensures row { IfOk result
        (λ full. full.items ≡ with_source (firsts nat_eq (flat_map (row entries.now) places.now)) source) }
    ensures marked { OnOk result (IsSeen seen.new []) }
{
    let mut row = joined(alloc, seen, entries, places)?;
    add_source(&mut row, seen, source)?;
    unmark(seen, row.as_slice());
    Ok(row)
}

/// The numbers of an entry, each where it first stands; none for an entry that was not read.
fn distinct(
    alloc: Global,
    seen: &mut [bool],
    entry: &Option<Vec<usize>>,
) -> Result<Vec<usize>, AllocError>
    requires within { AllBelow (length seen.old) entry.now }
    requires marked { IsSeen seen.old [] }
    ensures row { IfOk result (λ row. row.items ≡ firsts_of entry.now) }
    ensures marked { OnOk result (IsSeen seen.new []) }
{
    match entry {
        None => Ok(Vec::new(alloc)),
        Some(numbers) => {
            let mut row = Vec::new(alloc);
            add_new(&mut row, seen, numbers.as_slice())?;
            unmark(seen, row.as_slice());
            Ok(row)
        }
    }
}

/// The numbers of each entry, each where it first stands; none for an entry that was not read.
pub fn distinct_entries(
    alloc: Global,
    seen: &mut [bool],
    entries: &[Option<Vec<usize>>],
) -> Result<Vec<Vec<usize>>, AllocError>
    requires within { (place : ℕ) → AllBelow (length seen.old) (get_or entries.now place None) }
    requires marked { IsSeen seen.old [] }
    ensures rows { IfOk result
        (λ rows. (place : ℕ) → row rows.items place ≡ firsts_of (get_or entries.now place None)) }
    ensures length { IfOk result (λ rows. length rows.items ≡ length entries.now) }
    ensures marked { OnOk result (IsSeen seen.new []) }
{
    let mut rows = Vec::new(alloc);
    for entry in entries {
        rows.push(distinct(alloc, seen, entry)?)?;
    }
    Ok(rows)
}

/// The numbers of what each name needs, in its order, or nothing where these are more than `limit`.
pub fn rows_of(
    alloc: Global,
    book: &Rulebook,
    listing: &Listing,
    names: &Numbering,
    looked: &[Looked<'_>],
    entries: &[Vec<usize>],
    sources: &[Option<usize>],
    seen: &mut [bool],
    limit: usize,
) -> Result<Option<Vec<Vec<usize>>>, AllocError>
    requires limit { limit ≤ 1000000 }
    requires looked { looked.now ≡ map (looked_of book.now listing.now) names.now }
    requires entries { length entries.now ≡ length book.now.rules }
    requires sources { length sources.now ≡ length names.now }
    requires within { (place n : ℕ) → IsTrue (has nat_eq (row entries.now place) n)
        → n < length seen.old }
    requires sources_within { (i : ℕ) → i < length names.now
        → IfSome (get_or sources.now i None) (λ n. n < length seen.old) }
    requires marked { IsSeen seen.old [] }
    requires stand { (i : ℕ) → i < length names.now
        → Stand names.now (needs_of book.now.rules entries.now names.now sources.now i)
        (needs book.now listing.now (name_at names.now i)) }
    ensures length { IfOk result
        (λ found. IfSome found (λ rows. length rows.items ≡ length names.now)) }
    ensures rows { IfOk result
        (λ found. IfSome found
        (λ rows. (i : ℕ) → i < length names.now
        → row rows.items i ≡ needs_of book.now.rules entries.now names.now sources.now i)) }
    ensures few { IfOk result
        (λ found. IfSome found
        (λ rows. count_edges (needs book.now listing.now) names.now ≤ limit)) }
    ensures too_many { IfOk result
        (λ found. IfNone found
        ((count : ℕ) × (limit < count_edges (needs book.now listing.now) (take count names.now)))) }
{
    let mut rows: Vec<Vec<usize>> = Vec::new(alloc);
    let mut edges = 0;
    for number in 0..names.count() {
        let of = &looked[number];
        let row = full_row(alloc, seen, entries, of.rules, sources[number])?;
        edges += row.len();
        if edges > limit {
            return Ok(None);
        }
        rows.push(row)?;
    }
    Ok(Some(rows))
}
