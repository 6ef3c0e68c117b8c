//! The names that belong to recipes: no recipe writes what belongs to another.
ghost use Rattle.std.specs.Prelude.{◌≡◌, IfOk, OnOk, fold, map};
ghost use Rattle.std.specs.BTreeSet.{insert_key};
ghost use Rattle.std.specs.Cmp.Lexicographic.{slice_cmp};
ghost use Rattle.std.specs.List.Sorted.{IsStrictlySortedBy};
ghost use Rattle.std.specs.Ordering.{nat_cmp};
ghost use Rattle.mk_rules.specs.Book.{targets_of};
ghost use Rattle.mk_jobs.specs.Plan.{names_of};
ghost use Rattle.mk_foot.specs.Attached.{owned_names};

use mk_jobs::plan::Plan;
use mk_name::name::Name;
use mk_rules::rulebook::Rulebook;
use std::alloc::{AllocError, Global};
use std::collections::BTreeSet;

/// The names of the nodes of a plan and of the targets of target rules, lent, rising, each once. The only error is out of
/// memory.
pub(crate) fn owned_names<'a>(
    alloc: Global,
    plan: &'a Plan,
    rulebook: &'a Rulebook,
) -> Result<Vec<&'a Name>, AllocError>
    ensures names { IfOk result (λ list. map (λ name. name.now) list.items
        ≡ owned_names (names_of plan.now.nodes) (targets_of rulebook.now.rules)) }
    ensures rising { IfOk result (λ list.
        IsStrictlySortedBy (slice_cmp nat_cmp) (map (λ name. name.now) list.items)) }
{
    let mut names = BTreeSet::new(alloc);
    add_nodes(&mut names, plan)?;
    add_targets(&mut names, rulebook)?;
    in_order(alloc, &names)
}

/// Adds the names of the nodes.
fn add_nodes<'a>(names: &mut BTreeSet<&'a Name>, plan: &'a Plan) -> Result<(), AllocError>
    ensures { OnOk result (map (λ name. name.now) names.new.keys
        ≡ fold (insert_key (slice_cmp nat_cmp)) (map (λ name. name.now) names.old.keys) (names_of plan.now.nodes)) }
{
    for n in 0..plan.count() {
        names.insert(plan.name(n))?;
    }
    Ok(())
}

/// Adds the targets of target rules.
fn add_targets<'a>(names: &mut BTreeSet<&'a Name>, rulebook: &'a Rulebook) -> Result<(), AllocError>
    ensures { OnOk result (map (λ name. name.now) names.new.keys
        ≡ fold (insert_key (slice_cmp nat_cmp)) (map (λ name. name.now) names.old.keys) (targets_of rulebook.now.rules)) }
{
    for number in 0..rulebook.target_count() {
        if let Some(target) = rulebook.target(number) {
            names.insert(target)?;
        }
    }
    Ok(())
}

/// The names of a set, rising.
fn in_order<'a>(alloc: Global, names: &BTreeSet<&'a Name>) -> Result<Vec<&'a Name>, AllocError>
    ensures names { IfOk result (λ list. map (λ name. name.now) list.items ≡ map (λ name. name.now) names.now.keys) }
    ensures rising { IfOk result (λ list.
        IsStrictlySortedBy (slice_cmp nat_cmp) (map (λ name. name.now) list.items)) }
{
    let mut list = Vec::with_capacity(alloc, names.len())?;
    for name in names {
        list.push(*name)?;
    }
    Ok(list)
}
