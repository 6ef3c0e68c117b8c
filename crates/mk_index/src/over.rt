//! Who holds a number, or one above it.
ghost use Rattle.std.specs.Prelude.{ℕ, ◌≡◌, ◌<◌, ◌↔◌, ◌∷◌, [], Contains, IfOk, length};
ghost use Rattle.mk_index.specs.Ups.{IsHeldOver, number_count};

use crate::table::Table;
use crate::ups::Ups;
use std::alloc::{AllocError, Global};

/// Who holds a number or one above it, each as often as it holds one. The only error is out of memory.
pub fn holders_over(
    alloc: Global,
    ups: &Ups,
    holders: &Table,
    first: u32,
) -> Result<Vec<u32>, AllocError>
    requires first { first < number_count ups.now }
    requires all { length holders.now ≡ number_count ups.now }
    ensures { IfOk result (λ nodes. (a : ℕ) → Contains nodes.items a ↔ IsHeldOver ups.now holders.now (first ∷ []) a) }
{
    let mut nodes = Vec::new(alloc);
    let mut next = Some(first);
    while let Some(t) = next {
        nodes.extend_from_slice(holders.row(t as usize))?;
        next = ups.above(t);
    }
    Ok(nodes)
}
