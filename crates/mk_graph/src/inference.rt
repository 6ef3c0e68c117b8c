//! The sources of names by inference rules.
ghost use Rattle.std.specs.Prelude.{◌≡◌, ◌++◌, ◌&&◌, ◌<◌, ℕ, false, length, IfOk, IsTrue};
ghost use Rattle.mk_name.specs.Names.{has, same_name};
ghost use Rattle.mk_rules.specs.Book.{has_inference, is_phony};
ghost use Rattle.mk_jobs.specs.Numbered.{name_at};
ghost use Rattle.mk_graph.specs.Looked.{looked_of};
ghost use Rattle.mk_graph.specs.Makers.{inferred_source, is_there, old_suffix, source_of};
ghost use Rattle.mk_graph.specs.Numbers.{IsLeast, in_set};
ghost use Rattle.mk_graph.specs.Places.{IsLeastSuffix, IsOld};
ghost use Rattle.mk_graph.specs.SourceIndex.{IsSourceIndex};

use crate::index::SourceIndex;
use crate::looked::Looked;
use crate::makers::has_recipe;
use crate::numbers::{first_common, next_from};
use crate::suffix::suffix_of;
use mk_name::name::Name;
use mk_rules::rulebook::Rulebook;
use mk_text::listing::Listing;
use std::alloc::{AllocError, Global};
use std::collections::BTreeSet;

/// Whether the name exists: the listing has it, or it is a target of a target rule.
fn is_there(book: &Rulebook, listing: &Listing, name: &Name) -> bool
    ensures { result ≡ is_there book.now listing.now name.now }
{
    listing.contains(name) || book.is_target(name)
}

/// The suffix that inference changes: the name's own, if the list has it; else none.
fn old_suffix(alloc: Global, book: &Rulebook, name: &Name) -> Result<Name, AllocError>
    ensures value { IfOk result (λ old. old ≡ old_suffix book.now name.now) }
    ensures known { IfOk result (IsOld book.now.suffixes) }
{
    let suffix = Name::from_bytes(Vec::from_slice(alloc, suffix_of(name))?);
    if book.suffix_place(&suffix).is_some() {
        Ok(suffix)
    } else {
        Ok(Name::from_bytes(Vec::new(alloc)))
    }
}

/// The least of the places whose suffix makes an existing name of the stem.
fn first_there(
    alloc: Global,
    book: &Rulebook,
    listing: &Listing,
    stem: &Name,
    places: &BTreeSet<usize>,
) -> Result<Option<usize>, AllocError>
    requires { (p : ℕ) → IsTrue (in_set places.now p) → p < length book.now.suffixes }
    ensures { IfOk result
        (IsLeast (λ p. in_set places.now p
        && is_there book.now listing.now (stem.now ++ name_at book.now.suffixes p))) }
{
    let suffixes = book.suffixes();
    let mut from = 0;
    'places: while let Some(place) = next_from(places, from) {
        let name = stem.with_tail(alloc, stem.as_bytes().len(), suffixes[place].as_bytes())?;
        if is_there(book, listing, &name) {
            return Ok(Some(place));
        }
        from = place + 1;
    }
    Ok(None)
}

/// The least place of a suffix from which a rule leads to the old one and which makes an existing name of the stem.
fn source_place(
    alloc: Global,
    book: &Rulebook,
    listing: &Listing,
    index: &SourceIndex,
    stem: &Name,
    old: &Name,
) -> Result<Option<usize>, AllocError>
    requires index { IsSourceIndex book.now listing.now index.now }
    requires old { IsOld book.now.suffixes old.now }
    ensures { IfOk result
        (IsLeastSuffix book.now.suffixes (λ s. has_inference book.now (s ++ old.now)
        && is_there book.now listing.now (stem.now ++ s))) }
{
    let Some(rules) = index.rules.get(old) else {
        return Ok(None);
    };
    match index.names.get(stem) {
        Some(there) => Ok(first_common(rules, there)),
        None => first_there(alloc, book, listing, stem, rules),
    }
}

/// The source that an inference rule makes a name from that is not phony.
fn source_of(
    alloc: Global,
    book: &Rulebook,
    listing: &Listing,
    index: &SourceIndex,
    name: &Name,
) -> Result<Option<Name>, AllocError>
    requires index { IsSourceIndex book.now listing.now index.now }
    requires real { is_phony book.now name.now ≡ false }
    ensures { IfOk result (λ source. source ≡ source_of book.now listing.now name.now) }
{
    let old = old_suffix(alloc, book, name)?;
    let cut = name.as_bytes().len().saturating_sub(old.as_bytes().len());
    let stem = name.with_tail(alloc, cut, &[])?;
    match source_place(alloc, book, listing, index, &stem, &old)? {
        Some(place) => {
            let source = name.with_tail(alloc, cut, book.suffixes()[place].as_bytes())?;
            Ok(Some(source))
        }
        None => Ok(None),
    }
}

/// The source that an inference rule makes a name from; none where a target rule of it has commands, or where it is
/// phony ("Inference Rules"). The only error is out of memory.
pub(crate) fn inferred_source(
    alloc: Global,
    book: &Rulebook,
    listing: &Listing,
    index: &SourceIndex,
    looked: &Looked<'_>,
    name: &Name,
) -> Result<Option<Name>, AllocError>
    requires index { IsSourceIndex book.now listing.now index.now }
    requires looked { looked.now ≡ looked_of book.now listing.now name.now }
    ensures { IfOk result (λ source. source ≡ inferred_source book.now listing.now name.now) }
{
    if index.rules.is_empty() {
        return Ok(None);
    }
    if has_recipe(book, looked.rules) || looked.phony {
        return Ok(None);
    }
    source_of(alloc, book, listing, index, name)
}
