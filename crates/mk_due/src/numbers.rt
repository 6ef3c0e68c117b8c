//! Numbers of nodes, rising, each once.
ghost use Rattle.std.specs.Prelude.{◌≡◌, ◌≤◌, [], IfOk, OnOk, fold, length, nat_eq};
ghost use Rattle.std.specs.BTreeSet.{insert_key};
ghost use Rattle.std.specs.List.{cons_option};
ghost use Rattle.std.specs.Ordering.{nat_cmp};
ghost use Rattle.mk_name.specs.Names.{has};
ghost use Rattle.mk_jobs.specs.Numbered.{number_of};
ghost use Rattle.mk_jobs.specs.Plan.{node_limit};
ghost use Rattle.mk_due.specs.Items as spec;

use mk_name::name::Name;
use mk_task::labels::Labels;
use std::alloc::{AllocError, Global};
use std::collections::BTreeSet;

/// Adds the number of a name, if it has one.
fn add_number(numbers: &mut BTreeSet<u32>, names: &Labels, name: &Name) -> Result<(), AllocError>
    requires { length names.now ≤ node_limit }
    ensures { OnOk result (numbers.new.keys
        ≡ fold (insert_key nat_cmp) numbers.old.keys (cons_option (number_of names.now name.now) [])) }
{
    if let Some(number) = names.number(name) {
        numbers.insert(number as u32)?;
    }
    Ok(())
}

/// The numbers of some names. The only error is out of memory.
pub(crate) fn numbers_of(
    alloc: Global,
    names: &Labels,
    some: &[Name],
) -> Result<BTreeSet<u32>, AllocError>
    requires { length names.now ≤ node_limit }
    ensures { IfOk result (λ numbers. numbers.keys ≡ spec.numbers_of names.now some.now) }
{
    let mut numbers = BTreeSet::new(alloc);
    for name in some {
        add_number(&mut numbers, names, name)?;
    }
    Ok(numbers)
}

/// Whether a number is one of these.
fn is_among(numbers: &BTreeSet<u32>, number: u32) -> bool
    ensures { result ≡ has nat_eq numbers.now.keys number }
{
    numbers.contains(&number)
}

/// Those of the second that are not among the first. The only error is out of memory.
pub(crate) fn others(
    alloc: Global,
    needs: &BTreeSet<u32>,
    waits: &[u32],
) -> Result<Vec<u32>, AllocError>
    ensures { IfOk result (λ list. list.items ≡ spec.others needs.now.keys waits.now) }
{
    let mut list = Vec::new(alloc);
    for number in waits {
        if !is_among(needs, *number) {
            list.push(*number)?;
        }
    }
    Ok(list)
}
