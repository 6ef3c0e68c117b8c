//! Marks of those that hold a number, or one above it.
ghost use Rattle.std.specs.Prelude.{ℕ, ◌≡◌, ◌<◌, ◌*◌, ◌↔◌, ◌⊎◌, ◌∷◌, [], All, Contains, IfSome, length};
ghost use Rattle.mk_index.specs.Bits.{HasBit};
ghost use Rattle.mk_index.specs.Table.{row_of};
ghost use Rattle.mk_index.specs.Ups.{IsHeldOver, IsUp, IsUpOf, number_count};
ghost use Rattle.mk_index.specs.Marks.{AreMarked};

use crate::bits::set_bit;
use crate::table::Table;
use crate::ups::Ups;

/// Marks these numbers.
fn mark(nodes: &[u32], row: &mut [u64])
    requires { All (λ n. n < 64 * length row.old) nodes.now }
    ensures { (a : ℕ) → HasBit row.new a ↔ (HasBit row.old a ⊎ Contains nodes.now a) }
{
    for &n in nodes {
        set_bit(row, n);
    }
}

/// Marks who holds a number or one above it, up to where the way up from the last one is met.
fn climb(ups: &Ups, holders: &Table, first: u32, last: Option<u32>, row: &mut [u64])
    requires first { first < number_count ups.now }
    requires last { IfSome last (λ q. q < number_count ups.now) }
    requires all { length holders.now ≡ number_count ups.now }
    requires room { (t : ℕ) → All (λ n. n < 64 * length row.old) (row_of holders.now t) }
    ensures kept { (a : ℕ) → HasBit row.old a → HasBit row.new a }
    ensures sound { (a : ℕ) → HasBit row.new a → HasBit row.old a ⊎ IsHeldOver ups.now holders.now (first ∷ []) a }
    ensures marked { (t : ℕ) → IsUp ups.now t first → AreMarked row.new (row_of holders.now t) ⊎ IsUpOf ups.now t last }
{
    let mut seen = last;
    let mut next = Some(first);
    while let Some(t) = next {
        seen = ups.rise(seen, ups.rank(t));
        if seen == Some(t) {
            return;
        }
        mark(holders.row(t as usize), row);
        next = ups.above(t);
    }
}

/// Marks who holds one of these numbers, or one above it.
pub fn mark_over(ups: &Ups, holders: &Table, mine: &[u32], row: &mut [u64])
    requires mine { All (λ q. q < number_count ups.now) mine.now }
    requires all { length holders.now ≡ number_count ups.now }
    requires room { (t : ℕ) → All (λ n. n < 64 * length row.old) (row_of holders.now t) }
    ensures { (a : ℕ) → HasBit row.new a ↔ (HasBit row.old a ⊎ IsHeldOver ups.now holders.now mine.now a) }
{
    let mut last = None;
    for &q in mine {
        climb(ups, holders, q, last, row);
        last = Some(q);
    }
}
