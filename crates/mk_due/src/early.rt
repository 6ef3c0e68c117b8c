//! Whether a line waits for the tasks that make what it needs.
ghost use Rattle.std.specs.Prelude.{ℕ, ◌≡◌, ◌<◌, ◌&&◌, ◌||◌, IfOk, false, find, get_or, length, nat_eq};
ghost use Rattle.std.specs.List.{list_any};
ghost use Rattle.mk_name.specs.Names.{has};
ghost use Rattle.mk_jobs.specs.Plan as plans;
ghost use Rattle.mk_jobs.specs.Plan.{NeedsStandBefore};
ghost use Rattle.mk_due.specs.Awaited as spec;
ghost use Rattle.mk_due.specs.Good.{AreBelow};
ghost use Rattle.mk_due.specs.Items.{nodes_of};

use crate::item::DueItem;
use mk_name::name::Name;
use mk_task::labels::Labels;
use std::alloc::{AllocError, Global};

/// The first of some files that an item makes for which nobody waits who waits for these nodes. The only error is out of memory.
pub(crate) fn first_early(
    alloc: Global,
    items: &[DueItem],
    names: &Labels,
    needs: &[Name],
    waits: &[u32],
) -> Result<Option<Name>, AllocError>
    requires names { names.now ≡ plans.names_of (nodes_of items.now) }
    requires behind { NeedsStandBefore (nodes_of items.now) }
    requires below { AreBelow (length items.now) waits.now }
    ensures { IfOk result (λ found. found ≡ spec.first_early (nodes_of items.now) waits.now needs.now) }
{
    let mut marks = marks_of(alloc, items.len(), waits)?;
    early_behind(alloc, items, names, needs, &mut marks)
}

/// The first of some files that comes early, where these nodes and all that they stand behind are awaited. It marks what these
/// stand behind only where it has to. The only error is out of memory.
fn early_behind(
    alloc: Global,
    items: &[DueItem],
    names: &Labels,
    needs: &[Name],
    marks: &mut [bool],
) -> Result<Option<Name>, AllocError>
    requires long { length marks.old ≡ length items.now }
    requires names { names.now ≡ plans.names_of (nodes_of items.now) }
    requires behind { NeedsStandBefore (nodes_of items.now) }
    ensures { IfOk result (λ found. found ≡ find (spec.is_early (nodes_of items.now)
        (spec.with_needs (nodes_of items.now) (length items.now) (λ n. get_or marks.old n false))) needs.now) }
{
    if !has_early(items, names, needs, marks) {
        return Ok(None);
    }
    mark_behind(items, marks);
    early_of(alloc, items, names, needs, marks)
}

/// For each of so many nodes whether it is one of these. The only error is out of memory.
fn marks_of(alloc: Global, count: usize, nodes: &[u32]) -> Result<Vec<bool>, AllocError>
    requires { AreBelow count nodes.now }
    ensures long { IfOk result (λ marks. length marks.items ≡ count) }
    ensures marks { IfOk result (λ marks. (n : ℕ) → get_or marks.items n false ≡ has nat_eq nodes.now n) }
{
    let mut marks = vec![in alloc; false; count]?;
    mark(&mut marks, nodes);
    Ok(marks)
}

/// Marks these nodes too.
fn mark(marks: &mut [bool], nodes: &[u32])
    requires { AreBelow (length marks.old) nodes.now }
    ensures { (n : ℕ) → get_or marks.new n false ≡ (get_or marks.old n false || has nat_eq nodes.now n) }
{
    for &n in nodes {
        marks[n as usize] = true;
    }
}

/// Marks all that the marked nodes stand behind.
fn mark_behind(items: &[DueItem], marks: &mut [bool])
    requires long { length marks.old ≡ length items.now }
    requires behind { NeedsStandBefore (nodes_of items.now) }
    ensures { (n : ℕ) → get_or marks.new n false
        ≡ spec.with_needs (nodes_of items.now) (length items.now) (λ p. get_or marks.old p false) n }
{
    for n in (0..items.len()).rev() {
        mark_needs(items, marks, n);
    }
}

/// Marks what a node stands behind, if it is marked.
fn mark_needs(items: &[DueItem], marks: &mut [bool], n: usize)
    requires long { length marks.old ≡ length items.now }
    requires behind { NeedsStandBefore (nodes_of items.now) }
    requires node { n < length items.now }
    ensures { (p : ℕ) → get_or marks.new p false
        ≡ (get_or marks.old p false || (get_or marks.old n false && has nat_eq (spec.needs_at (nodes_of items.now) n) p)) }
{
    if marks[n] {
        mark(marks, items[n].prerequisites());
    }
}

/// Whether a file comes early, where just these nodes are awaited.
fn is_early(items: &[DueItem], names: &Labels, name: &Name, marks: &[bool]) -> bool
    requires long { length marks.now ≡ length items.now }
    requires names { names.now ≡ plans.names_of (nodes_of items.now) }
    ensures { result ≡ spec.is_early (nodes_of items.now) (λ n. get_or marks.now n false) name.now }
{
    match names.number(name) {
        Some(n) => items[n].is_task() && !marks[n],
        None => false,
    }
}

/// Whether one of these files comes early, where just these nodes are awaited.
fn has_early(items: &[DueItem], names: &Labels, needs: &[Name], marks: &[bool]) -> bool
    requires long { length marks.now ≡ length items.now }
    requires names { names.now ≡ plans.names_of (nodes_of items.now) }
    ensures { result ≡ list_any (spec.is_early (nodes_of items.now) (λ n. get_or marks.now n false)) needs.now }
{
    needs.iter().any(|name| is_early(items, names, name, marks))
}

/// The first of these files that comes early, where just these nodes are awaited. The only error is out of memory.
fn early_of(
    alloc: Global,
    items: &[DueItem],
    names: &Labels,
    needs: &[Name],
    marks: &[bool],
) -> Result<Option<Name>, AllocError>
    requires long { length marks.now ≡ length items.now }
    requires names { names.now ≡ plans.names_of (nodes_of items.now) }
    ensures { IfOk result (λ found. found
        ≡ find (spec.is_early (nodes_of items.now) (λ n. get_or marks.now n false)) needs.now) }
{
    for name in needs {
        if is_early(items, names, name, marks) {
            return Ok(Some(name.copy(alloc)?));
        }
    }
    Ok(None)
}
