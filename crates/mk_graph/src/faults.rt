//! What is wrong with a graph: a name that nothing makes, or a cycle.
ghost use Rattle.std.specs.Prelude.{◌≡◌, ◌<◌, ◌+◌, ◌++◌, ◌≤◌, ℕ, length, map, drop, take, nat_eq, IsTrue, IfOk, OnOk};
ghost use Rattle.mk_name.specs.Names.{has};
ghost use Rattle.mk_graph.specs.Least.{upto, IsLeastPassing, IsLeastPlace};
ghost use Rattle.mk_graph.specs.Looked.{looked_of};
ghost use Rattle.mk_graph.specs.Makers.{is_unmade, maker_of};
ghost use Rattle.mk_jobs.specs.Numbered.{name_at};

use crate::looked::Looked;
use crate::makers::is_unmade;
use mk_jobs::maker::Maker;
use mk_jobs::numbering::Numbering;
use mk_name::name::Name;
use mk_rules::rulebook::Rulebook;
use mk_text::listing::Listing;
use std::alloc::{AllocError, Global};

/// Whether one name comes before another byte by byte, or is the same.
fn is_upto(names: &Numbering, a: usize, b: usize) -> bool
    requires first { a < length names.now }
    requires second { b < length names.now }
    ensures { result ≡ upto (name_at names.now a) (name_at names.now b) }
{
    names.name(a) <= names.name(b)
}

/// The number of the least of the names that nothing makes, by what was looked up of them. Only the contract speaks of the
/// book and of the listing.
pub fn least_unmade(
    book: &Rulebook,
    listing: &Listing,
    names: &Numbering,
    looked: &[Looked<'_>],
    makers: &[Maker],
) -> Option<usize>
    requires looked { looked.now ≡ map (looked_of book.now listing.now) names.now }
    requires makers { makers.now ≡ map (maker_of book.now listing.now) names.now }
    ensures { IsLeastPassing (is_unmade book.now listing.now) names.now (length names.now) result }
{
    let mut least = None;
    for number in 0..names.count() {
        if is_unmade(&looked[number], makers[number]) {
            least = match least {
                Some(best) if is_upto(names, best, number) => Some(best),
                _ => Some(number),
            };
        }
    }
    least
}

/// The place in the ring that has the least name.
fn least_place(names: &Numbering, ring: &[usize]) -> usize
    requires some { 0 < length ring.now }
    requires within { (n : ℕ) → IsTrue (has nat_eq ring.now n) → n < length names.now }
    ensures { IsLeastPlace names.now ring.now (length ring.now) result }
{
    let mut least = 0;
    for place in 1..ring.len() {
        if !is_upto(names, ring[least], ring[place]) {
            least = place;
        }
    }
    least
}

/// Puts the names with these numbers at the end.
fn add_names(
    alloc: Global,
    all: &mut Vec<Name>,
    names: &Numbering,
    numbers: &[usize],
) -> Result<(), AllocError>
    requires { (n : ℕ) → IsTrue (has nat_eq numbers.now n) → n < length names.now }
    ensures { OnOk result (all.new.items ≡ all.old.items ++ map (name_at names.now) numbers.now) }
{
    for number in numbers {
        all.push(names.name(*number).copy(alloc)?)?;
    }
    Ok(())
}

/// The names of a ring from one place on, round to that place again.
fn names_from(
    alloc: Global,
    names: &Numbering,
    ring: &[usize],
    first: usize,
) -> Result<Vec<Name>, AllocError>
    requires within { (n : ℕ) → IsTrue (has nat_eq ring.now n) → n < length names.now }
    requires first { first < length ring.now }
    ensures { IfOk result
        (λ cycle. cycle.items ≡ map (name_at names.now)
        (drop first ring.now ++ take (first + 1) ring.now)) }
{
    let mut cycle = Vec::new(alloc);
    add_names(alloc, &mut cycle, names, &ring[first..])?;
    add_names(alloc, &mut cycle, names, &ring[..first + 1])?;
    Ok(cycle)
}

/// The cycle of a ring: its names from the least one on, each needing the next, round to the least one again.
pub fn cycle_of(alloc: Global, names: &Numbering, ring: &[usize]) -> Result<Vec<Name>, AllocError>
    requires some { 0 < length ring.now }
    requires within { (n : ℕ) → IsTrue (has nat_eq ring.now n) → n < length names.now }
    ensures { IfOk result
        (λ cycle. (first : ℕ) × IsLeastPlace names.now ring.now (length ring.now) first ×
        (cycle.items ≡ map (name_at names.now)
        (drop first ring.now ++ take (first + 1) ring.now))) }
{
    let first = least_place(names, ring);
    names_from(alloc, names, ring, first)
}
