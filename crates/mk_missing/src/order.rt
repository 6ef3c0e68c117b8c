//! Pairs brought in order.
ghost use Rattle.std.specs.Prelude.{ℕ, ◌↔◌, Contains};
ghost use Rattle.mk_decide.specs.Pairs.{PairsRise};

/// Brings pairs in order, and drops those that stand there twice.
pub(crate) fn in_order(pairs: &mut Vec<(u32, u32)>)
    ensures rise { PairsRise pairs.new.items }
    ensures same { (k n : ℕ) → Contains pairs.new.items (k, n) ↔ Contains pairs.old.items (k, n) }
{
    pairs.sort_unstable();
    pairs.dedup();
}
