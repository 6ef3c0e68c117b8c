//! The first of some numbers that one of others stands above.
ghost use Rattle.std.specs.Prelude.{ℕ, ◌≡◌, ◌<◌, ◌≤◌, ◌↔◌, All, Contains, IfNone, IfSome, IsTrue, length, slice_index};
ghost use Rattle.std.specs.List.Sorted.{IsStrictlyIncreasing};
ghost use Rattle.mk_index.specs.Index.{IsNumberRow};
ghost use Rattle.mk_index.specs.Meets.{AreBelow, IsMet};
ghost use Rattle.mk_index.specs.Ups.{IsUpOf, number_count};

use crate::ups::Ups;

/// Whether a number is one of these, which rise.
fn is_one(numbers: &[u32], t: u32) -> bool
    requires { IsStrictlyIncreasing numbers.now }
    ensures { IsTrue result ↔ Contains numbers.now t }
{
    numbers.binary_search(&t).is_ok()
}

/// The place of the first of these numbers that is not below q, where all up to a place are.
fn skip(numbers: &[u32], from: usize, q: u32) -> usize
    requires within { from ≤ length numbers.now }
    requires below { AreBelow numbers.now from q }
    ensures within { result ≤ length numbers.now }
    ensures below { AreBelow numbers.now result q }
    ensures first { result < length numbers.now → q ≤ slice_index numbers.now result }
{
    let mut at = from;
    while at < numbers.len() && numbers[at] < q {
        at += 1;
    }
    at
}

/// Whether one of these numbers, which rise, is a number or stands above it. Those on the way up from the last one are known
/// to be none of them.
fn is_met(ups: &Ups, theirs: &[u32], first: u32, last: Option<u32>) -> bool
    requires first { first < number_count ups.now }
    requires last { IfSome last (λ q. q < number_count ups.now) }
    requires rise { IsStrictlyIncreasing theirs.now }
    requires none { (t : ℕ) → IsUpOf ups.now t last → ¬ Contains theirs.now t }
    ensures { IsTrue result ↔ IsMet ups.now theirs.now first }
{
    let mut seen = last;
    let mut next = Some(first);
    while let Some(t) = next {
        seen = ups.rise(seen, ups.rank(t));
        if seen == Some(t) {
            return false;
        }
        if is_one(theirs, t) {
            return true;
        }
        next = ups.above(t);
    }
    false
}

/// The place of the first of these numbers that is one of the others, or has one of them above it. Both lists rise.
pub fn first_met(ups: &Ups, mine: &[u32], theirs: &[u32]) -> Option<usize>
    requires mine { IsNumberRow ups.now mine.now }
    requires rise { IsStrictlyIncreasing theirs.now }
    ensures within { IfSome result (λ i. i < length mine.now) }
    ensures met { IfSome result (λ i. IsMet ups.now theirs.now (slice_index mine.now i)) }
    ensures first { IfSome result (λ i. (k : ℕ) → k < i → ¬ IsMet ups.now theirs.now (slice_index mine.now k)) }
    ensures none { IfNone result ((k : ℕ) → k < length mine.now → ¬ IsMet ups.now theirs.now (slice_index mine.now k)) }
{
    let mut at = 0;
    let mut last = None;
    for (i, &q) in mine.iter().enumerate() {
        at = skip(theirs, at, q);
        if at < theirs.len() && theirs[at] == q {
            return Some(i);
        }
        if let Some(u) = ups.above(q) {
            if is_met(ups, theirs, u, last) {
                return Some(i);
            }
        }
        last = Some(q);
    }
    None
}
