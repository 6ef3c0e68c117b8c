//! The order of names: their bytes one by one, eight at a time.
ghost use Rattle.std.specs.Prelude.{◌≡◌};
ghost use Rattle.std.specs.Cmp.Lexicographic.{slice_cmp};
ghost use Rattle.std.specs.Int.{w64, from_be_bytes};
ghost use Rattle.std.specs.Ordering.{nat_cmp};

use std::cmp::Ordering;

/// How many bytes are compared at once.
const STEP: usize = 8;

/// Eight bytes as one number, which is the greater the greater the first byte that differs.
fn number(bytes: &[u8; STEP]) -> u64
    ensures { result ≡ from_be_bytes w64 bytes.now }
{
    u64::from_be_bytes(*bytes)
}

/// How two texts stand to each other: by the first byte that differs, and where one begins the other, by their lengths.
pub(crate) fn compare(one: &[u8], other: &[u8]) -> Ordering
    ensures { result ≡ slice_cmp nat_cmp one.now other.now }
{
    let (mut left, mut right) = (one, other);
    'steps: while let (Some((first, after_first)), Some((second, after_second))) = (
        left.split_first_chunk::<STEP>(),
        right.split_first_chunk::<STEP>(),
    ) {
        let (first, second) = (number(first), number(second));
        if first != second {
            return first.cmp(&second);
        }
        left = after_first;
        right = after_second;
    }
    left.cmp(&right)
}
