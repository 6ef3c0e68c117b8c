//! The prerequisites of each node, in rising order.
ghost use Rattle.std.specs.Prelude.{IfOk};
ghost use Rattle.std.specs.List.Sorted.{IsNonDecreasing, IsPermutation};
ghost use Rattle.mk_jobs.specs.Needs.{AreNeeds};

use crate::plan::Plan;
use mk_index::table::Table;
use std::alloc::{AllocError, Global};

/// For each node of a plan the numbers of its prerequisites, rising. The only error is out of memory.
pub(crate) fn needs_of(alloc: Global, plan: &Plan) -> Result<Table, AllocError>
    ensures { IfOk result (AreNeeds plan.now.nodes) }
{
    let mut needs = Table::new(alloc);
    for n in 0..plan.count() {
        let row = in_order(alloc, plan.prerequisites(n))?;
        needs.push_row(&row)?;
    }
    Ok(needs)
}

/// Some numbers in order. The only error is out of memory.
fn in_order(alloc: Global, numbers: &[u32]) -> Result<Vec<u32>, AllocError>
    ensures rising { IfOk result (λ row. IsNonDecreasing row.items) }
    ensures all { IfOk result (λ row. IsPermutation numbers.now row.items) }
{
    let mut row = Vec::from_slice(alloc, numbers)?;
    row.sort_unstable();
    Ok(row)
}
