//! Questions about sets of numbers.
ghost use Rattle.std.specs.Prelude.{◌≡◌, ◌&&◌, find};
ghost use Rattle.mk_graph.specs.Numbers.{IsLeast, IsNext, in_set};

use std::collections::BTreeSet;

/// The least number of the set from this one on.
pub(crate) fn next_from(numbers: &BTreeSet<usize>, from: usize) -> Option<usize>
    ensures { IsNext numbers.now from result }
{
    numbers.range(from..).next().copied()
}

/// The first number of one set that the other has too.
fn first_in(few: &BTreeSet<usize>, many: &BTreeSet<usize>) -> Option<usize>
    ensures { result ≡ find (in_set many.now) few.now.keys }
{
    for number in few {
        if many.contains(number) {
            return Some(*number);
        }
    }
    None
}

/// The least number that both sets have. The smaller is gone through, and the other asked.
pub(crate) fn first_common(one: &BTreeSet<usize>, other: &BTreeSet<usize>) -> Option<usize>
    ensures { IsLeast (λ n. in_set one.now n && in_set other.now n) result }
{
    if one.len() <= other.len() {
        first_in(one, other)
    } else {
        first_in(other, one)
    }
}
