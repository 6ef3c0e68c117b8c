//! What is looked up for sources: which suffixes the inference rules lead from, and with which suffixes names exist.
ghost use Rattle.std.specs.Prelude.{◌≡◌, ◌++◌, ◌∷◌, [], true, List, ℕ, IfOk, OnOk};
ghost use Rattle.std.specs.List.{All};
ghost use Rattle.mk_name.specs.Names.{Name};
ghost use Rattle.mk_rules.specs.Book.{targets_of};
ghost use Rattle.mk_rules.specs.Special.{is_suffix};
ghost use Rattle.mk_graph.specs.Places.{AreNamePlaces, AreRulePlaces, IsBlank, NotesPlace, before_last_period};
ghost use Rattle.mk_graph.specs.SourceIndex.{IsSourceIndex, names_there};

use crate::places::{Table, put_beside, put_known};
use crate::suffix::{from_last_period, suffix_of};
use mk_name::name::Name;
use mk_rules::rulebook::Rulebook;
use mk_text::listing::Listing;
use std::alloc::{AllocError, Global};
use std::collections::{BTreeMap, BTreeSet};

/// More rules than so many may lead to one suffix only where the names that exist are indexed too.
const FEW: usize = 32;

/// What is looked up for sources.
#[derive(Debug, Drop)]
pub(crate) struct SourceIndex {
    /// Beside each suffix the places of those from which an inference rule leads to it; beside no suffix those of the
    /// rules of one suffix.
    pub(crate) rules: Table,
    /// Beside each name that stands here the places of the suffixes with which it exists. There are such names only where
    /// many rules lead to one suffix, since all files that exist are read for them.
    pub(crate) names: Table,
}

/// What stands before the last period; all where there is none.
fn before_last_period(name: &[u8]) -> &[u8]
    ensures { result.now ≡ before_last_period name.now }
{
    let length = from_last_period(name).len();
    &name[..name.len().saturating_sub(length)]
}

/// Puts the place of a suffix beside a name, if the list has the suffix.
fn note(
    alloc: Global,
    book: &Rulebook,
    table: &mut Table,
    name: &[u8],
    suffix: &[u8],
) -> Result<(), AllocError>
    ensures { OnOk result (NotesPlace book.now.suffixes name.now suffix.now table.old table.new) }
{
    let suffix = Name::from_bytes(Vec::from_slice(alloc, suffix)?);
    match book.suffix_place(&suffix) {
        Some(place) => {
            let name = Name::from_bytes(Vec::from_slice(alloc, name)?);
            put_beside(alloc, table, name, place)
        }
        None => Ok(()),
    }
}

/// Notes an inference rule.
fn note_rule(
    alloc: Global,
    book: &Rulebook,
    table: &mut Table,
    rule: &Name,
) -> Result<(), AllocError>
    requires { All (λ s. is_suffix s ≡ true) book.now.suffixes }
    ensures { OnOk result ((rules : List Name) → AreRulePlaces book.now.suffixes rules table.old
        → AreRulePlaces book.now.suffixes (rules ++ rule.now ∷ []) table.new) }
{
    let front = before_last_period(rule.as_bytes());
    let last = from_last_period(rule.as_bytes());
    if front.is_empty() {
        note(alloc, book, table, &[], last)
    } else {
        note(alloc, book, table, last, front)
    }
}

/// The places of the suffixes of the inference rules.
fn rule_places(alloc: Global, book: &Rulebook) -> Result<Table, AllocError>
    requires { All (λ s. is_suffix s ≡ true) book.now.suffixes }
    ensures { IfOk result (AreRulePlaces book.now.suffixes book.now.inference) }
{
    let mut table = BTreeMap::new(alloc);
    for rule in book.inference_rules() {
        note_rule(alloc, book, &mut table, rule)?;
    }
    Ok(table)
}

/// Puts the stem of a name into the table, without places.
fn want(alloc: Global, book: &Rulebook, table: &mut Table, name: &Name) -> Result<(), AllocError>
    requires { IsBlank table.old }
    ensures { OnOk result (IsBlank table.new) }
{
    let suffix = Name::from_bytes(Vec::from_slice(alloc, suffix_of(name))?);
    let length = match book.suffix_place(&suffix) {
        Some(_) => suffix.as_bytes().len(),
        None => 0,
    };
    let stem = name.with_tail(alloc, name.as_bytes().len().saturating_sub(length), &[])?;
    if !table.contains_key(&stem) {
        table.insert(stem, BTreeSet::new(alloc))?;
    }
    Ok(())
}

/// Puts the stems of some names into the table, without places.
fn want_all(
    alloc: Global,
    book: &Rulebook,
    table: &mut Table,
    names: &[Name],
) -> Result<(), AllocError>
    requires { IsBlank table.old }
    ensures { OnOk result (IsBlank table.new) }
{
    for name in names {
        want(alloc, book, table, name)?;
    }
    Ok(())
}

/// Puts the stems of the targets of target rules into the table, without places.
fn want_targets(alloc: Global, book: &Rulebook, table: &mut Table) -> Result<(), AllocError>
    requires { IsBlank table.old }
    ensures { OnOk result (IsBlank table.new) }
{
    for number in 0..book.target_count() {
        if let Some(target) = book.target(number) {
            want(alloc, book, table, target)?;
        }
    }
    Ok(())
}

/// Puts the stems of the prerequisites of target rules into the table, without places.
fn want_prerequisites(alloc: Global, book: &Rulebook, table: &mut Table) -> Result<(), AllocError>
    requires { IsBlank table.old }
    ensures { OnOk result (IsBlank table.new) }
{
    for place in 0..book.rule_count() {
        want_all(alloc, book, table, book.rule_prerequisites(place))?;
    }
    Ok(())
}

/// The stems of all names that a source may be asked of at first, without places.
fn wanted_stems(alloc: Global, book: &Rulebook, goals: &[Name]) -> Result<Table, AllocError>
    ensures { IfOk result IsBlank }
{
    let mut table = BTreeMap::new(alloc);
    want_all(alloc, book, &mut table, goals)?;
    want_targets(alloc, book, &mut table)?;
    want_prerequisites(alloc, book, &mut table)?;
    Ok(table)
}

/// Notes a name that exists, if the table has its stem.
fn note_name(
    alloc: Global,
    book: &Rulebook,
    table: &mut Table,
    name: &Name,
) -> Result<(), AllocError>
    requires { All (λ s. is_suffix s ≡ true) book.now.suffixes }
    ensures { OnOk result ((names : List Name) → AreNamePlaces book.now.suffixes names table.old
        → AreNamePlaces book.now.suffixes (names ++ name.now ∷ []) table.new) }
{
    let suffix = Name::from_bytes(Vec::from_slice(alloc, from_last_period(name.as_bytes()))?);
    let Some(place) = book.suffix_place(&suffix) else {
        return Ok(());
    };
    let front = before_last_period(name.as_bytes());
    put_known(
        table,
        Name::from_bytes(Vec::from_slice(alloc, front)?),
        place,
    )
}

/// Notes the files that exist.
fn note_listed(
    alloc: Global,
    book: &Rulebook,
    table: &mut Table,
    listing: &Listing,
) -> Result<(), AllocError>
    requires { All (λ s. is_suffix s ≡ true) book.now.suffixes }
    ensures { OnOk result (AreNamePlaces book.now.suffixes [] table.old
        → AreNamePlaces book.now.suffixes listing.now table.new) }
{
    for name in listing.names() {
        note_name(alloc, book, table, name)?;
    }
    Ok(())
}

/// Notes the targets of target rules.
fn note_targets(alloc: Global, book: &Rulebook, table: &mut Table) -> Result<(), AllocError>
    requires { All (λ s. is_suffix s ≡ true) book.now.suffixes }
    ensures { OnOk result ((names : List Name) → AreNamePlaces book.now.suffixes names table.old
        → AreNamePlaces book.now.suffixes (names ++ targets_of book.now.rules) table.new) }
{
    for number in 0..book.target_count() {
        if let Some(target) = book.target(number) {
            note_name(alloc, book, table, target)?;
        }
    }
    Ok(())
}

/// The places of the suffixes of the names that exist, beside the stems of all names that a source may be asked of at
/// first.
fn name_places(
    alloc: Global,
    book: &Rulebook,
    listing: &Listing,
    goals: &[Name],
) -> Result<Table, AllocError>
    requires { All (λ s. is_suffix s ≡ true) book.now.suffixes }
    ensures { IfOk result (AreNamePlaces book.now.suffixes (names_there book.now listing.now)) }
{
    let mut table = wanted_stems(alloc, book, goals)?;
    note_listed(alloc, book, &mut table, listing)?;
    note_targets(alloc, book, &mut table)?;
    Ok(table)
}

/// Whether many places stand beside one name.
fn has_many(table: &Table) -> bool {
    table.values().any(|places| places.len() > FEW)
}

/// The index of a book and a listing for some goals. The only error is out of memory.
pub(crate) fn source_index(
    alloc: Global,
    book: &Rulebook,
    listing: &Listing,
    goals: &[Name],
) -> Result<SourceIndex, AllocError>
    ensures { IfOk result (IsSourceIndex book.now listing.now) }
{
    let are_many = book.suffixes().len() > FEW;
    let rules = rule_places(alloc, book)?;
    let names = if are_many && has_many(&rules) {
        name_places(alloc, book, listing, goals)?
    } else {
        BTreeMap::new(alloc)
    };
    Ok(SourceIndex { rules, names })
}
