//! The least name of some that belongs to another and is covered. What a path covers of names that rise is a few ranges
//! of them, and of each range the first name is looked for by halves.
ghost use Rattle.std.specs.Prelude.{◌≡◌, ◌++◌, ◌&&◌, ℕ, ◌<◌, ◌≤◌, [], codes, find, length, map, not, slice_index_or, IsTrue};
ghost use Rattle.std.specs.Cmp.Lexicographic.{slice_cmp};
ghost use Rattle.std.specs.List.Sorted.{IsStrictlySortedBy};
ghost use Rattle.std.specs.Option.{option_copied, option_map};
ghost use Rattle.std.specs.Ordering.{nat_cmp};
ghost use Rattle.mk_name.specs.Names.{same_name};
ghost use Rattle.mk_path.specs.Paths.{covers};
ghost use Rattle.mk_path.specs.Ranges as spec;
ghost use Rattle.mk_path.specs.Taken.{is_taken};
ghost use Rattle.mk_text.specs.Spelling.{is_absolute, top_of};

use crate::path::Path;
use mk_name::name::Name;
use mk_text::root::Root;
use std::cmp::Ordering;

/// How a name stands to a text that is made of two, byte by byte.
fn order(name: &[u8], head: &[u8], tail: &[u8]) -> Ordering
    ensures { result ≡ slice_cmp nat_cmp name.now (head.now ++ tail.now) }
{
    let cut = head.len().min(name.len());
    name[..cut].cmp(&head).then(name[cut..].cmp(&tail))
}

/// Whether a name stands before a text that is made of two.
fn is_before(name: &[u8], head: &[u8], tail: &[u8]) -> bool
    ensures { result ≡ spec.is_before (head.now ++ tail.now) name.now }
{
    order(name, head, tail).is_lt()
}

/// The place of the first name that does not stand before a text.
fn first_from(names: &[&Name], head: &[u8], tail: &[u8]) -> usize
    requires { IsStrictlySortedBy (slice_cmp nat_cmp) (map (λ name. name.now) names.now) }
    ensures bound { result ≤ length names.now }
    ensures before { (k : ℕ) → k < result
        → IsTrue (spec.is_before (head.now ++ tail.now) (slice_index_or (map (λ name. name.now) names.now) k [])) }
    ensures after { (k : ℕ) → result ≤ k → k < length names.now
        → IsTrue (not (spec.is_before (head.now ++ tail.now) (slice_index_or (map (λ name. name.now) names.now) k []))) }
{
    names.partition_point(|name| is_before(name.as_bytes(), head, tail))
}

/// The place after that one where the own name stands there.
fn past_own(names: &[&Name], own: &Name, place: usize) -> usize
    ensures { result ≡ spec.past_own (map (λ name. name.now) names.now) own.now place }
{
    match names.get(place) {
        Some(name) if *own == **name => place + 1,
        _ => place,
    }
}

/// Whether a name stands at a place and before a text, where there is one.
fn is_below_bound(names: &[&Name], place: usize, head: &[u8], high: Option<&[u8]>) -> bool
    ensures { result ≡ spec.stands_at (map (λ name. name.now) names.now) place
        (spec.is_below_bound (option_map (λ tail. head.now ++ tail.now) high.entry)) }
{
    let Some(name) = names.get(place) else {
        return false;
    };
    match high {
        Some(tail) => is_before(name.as_bytes(), head, tail),
        None => true,
    }
}

/// The place of the first name in a range of byte order, other than the own one; or how many names there are. The
/// bounds have one head.
fn first_between(names: &[&Name], own: &Name, head: &[u8], low: &[u8], high: Option<&[u8]>) -> usize
    requires { IsStrictlySortedBy (slice_cmp nat_cmp) (map (λ name. name.now) names.now) }
    ensures { let bound = option_map (λ tail. head.now ++ tail.now) high.entry in
        result ≡ spec.first_place (spec.is_between (head.now ++ low.now) bound) own.now (map (λ name. name.now) names.now) }
{
    let place = past_own(names, own, first_from(names, head, low));
    if is_below_bound(names, place, head, high) {
        place
    } else {
        names.len()
    }
}

/// The place of the first name of these bytes, other than the own one.
fn first_named(names: &[&Name], own: &Name, text: &[u8]) -> usize
    requires { IsStrictlySortedBy (slice_cmp nat_cmp) (map (λ name. name.now) names.now) }
    ensures { result ≡ spec.first_place (same_name text.now) own.now (map (λ name. name.now) names.now) }
{
    first_between(names, own, text, b"".as_slice(), Some(b"\0".as_slice()))
}

/// The place of the first name that begins with a text and a slash, other than the own one.
fn first_going_on(names: &[&Name], own: &Name, text: &[u8]) -> usize
    requires { IsStrictlySortedBy (slice_cmp nat_cmp) (map (λ name. name.now) names.now) }
    ensures { result ≡ spec.first_place (spec.goes_on text.now) own.now (map (λ name. name.now) names.now) }
{
    first_between(names, own, text, b"/".as_slice(), Some(b"0".as_slice()))
}

/// The place of the first name that does not begin with a slash, other than the own one.
fn first_relative(names: &[&Name], own: &Name) -> usize
    requires { IsStrictlySortedBy (slice_cmp nat_cmp) (map (λ name. name.now) names.now) }
    ensures { result ≡ spec.first_place (λ x. not (is_absolute x)) own.now (map (λ name. name.now) names.now) }
{
    let none = b"".as_slice();
    let lower = first_between(names, own, none, none, Some(b"/".as_slice()));
    let upper = first_between(names, own, none, b"0".as_slice(), None);
    lower.min(upper)
}

/// The place of the first name below a folder of some bytes that it spells, other than the own one.
fn first_inside(names: &[&Name], own: &Name, tree: &[u8]) -> usize
    requires { IsStrictlySortedBy (slice_cmp nat_cmp) (map (λ name. name.now) names.now) }
    ensures { result ≡ spec.first_place (spec.is_inside tree.now) own.now (map (λ name. name.now) names.now) }
{
    if tree.is_empty() {
        names.len()
    } else {
        first_going_on(names, own, tree)
    }
}

/// The place of the first name that begins with a slash, other than the own one, where the tree is that of the slash.
fn first_absolute(names: &[&Name], own: &Name, tree: &[u8]) -> usize
    requires { IsStrictlySortedBy (slice_cmp nat_cmp) (map (λ name. name.now) names.now) }
    ensures { result ≡ spec.first_place (λ x. same_name tree.now (codes "/") && is_absolute x)
        own.now (map (λ name. name.now) names.now) }
{
    if tree == b"/".as_slice() {
        first_going_on(names, own, b"".as_slice())
    } else {
        names.len()
    }
}

/// Whether a text begins with a slash.
fn is_absolute(text: &[u8]) -> bool
    ensures { result ≡ is_absolute text.now }
{
    matches!(text, [b'/', ..])
}

/// Whether a text begins with another and then a slash.
fn goes_on(text: &[u8], start: &[u8]) -> bool
    ensures { result ≡ spec.goes_on start.now text.now }
{
    match text.strip_prefix(start) {
        Some(rest) => is_absolute(rest),
        None => false,
    }
}

/// Whether a text stands below a folder of some bytes that it spells.
fn is_inside(text: &[u8], tree: &[u8]) -> bool
    ensures { result ≡ spec.is_inside tree.now text.now }
{
    !tree.is_empty() && goes_on(text, tree)
}

/// Whether a folder is `.`, or one that the root stands in.
fn is_over_names(root: &Root, tree: &[u8]) -> bool
    ensures { result ≡ spec.is_over_names (top_of root.now) tree.now }
{
    let top = root.top();
    let slash = b"/".as_slice();
    let is_slash = top == slash;
    b".".as_slice() == tree || (!is_slash && (is_inside(top, tree) || slash == tree))
}

/// The place of the first name that does not begin with a slash, other than the own one, where the tree is over these.
fn first_outer(root: &Root, names: &[&Name], own: &Name, tree: &[u8]) -> usize
    requires { IsStrictlySortedBy (slice_cmp nat_cmp) (map (λ name. name.now) names.now) }
    ensures { result ≡ spec.first_place (λ x. spec.is_over_names (top_of root.now) tree.now && not (is_absolute x))
        own.now (map (λ name. name.now) names.now) }
{
    if is_over_names(root, tree) {
        first_relative(names, own)
    } else {
        names.len()
    }
}

/// The place of the first name that a tree covers, other than the own one.
fn first_in_tree(root: &Root, names: &[&Name], own: &Name, tree: &[u8]) -> usize
    requires { IsStrictlySortedBy (slice_cmp nat_cmp) (map (λ name. name.now) names.now) }
    ensures { result ≡ spec.first_place (spec.in_tree (top_of root.now) tree.now)
        own.now (map (λ name. name.now) names.now) }
{
    let spelled = first_named(names, own, tree).min(first_inside(names, own, tree));
    let other = first_absolute(names, own, tree).min(first_outer(root, names, own, tree));
    spelled.min(other)
}

/// The place of the first name that a path covers, other than the own one.
fn first_covered(root: &Root, path: &Path, names: &[&Name], own: &Name) -> usize
    requires { IsStrictlySortedBy (slice_cmp nat_cmp) (map (λ name. name.now) names.now) }
    ensures { result ≡ spec.first_place (covers root.now path.now) own.now (map (λ name. name.now) names.now) }
{
    let text = path.name.as_bytes();
    if path.tree {
        first_in_tree(root, names, own, text)
    } else {
        first_named(names, own, text)
    }
}

/// The least of some names, which rise, other than `own`, that one of the paths covers (profile); none where no other
/// name is covered.
pub fn least_covered<'a>(
    root: &Root,
    paths: &[Path],
    names: &[&'a Name],
    own: &Name,
) -> Option<&'a Name>
    requires { IsStrictlySortedBy (slice_cmp nat_cmp) (map (λ name. name.now) names.now) }
    ensures { option_copied result ≡ find (is_taken root.now paths.now own.now) (map (λ name. name.now) names.now) }
{
    let mut place = names.len();
    for path in paths {
        place = place.min(first_covered(root, path, names, own));
    }
    names.get(place).copied()
}
