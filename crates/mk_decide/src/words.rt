//! Words merged bit by bit.
ghost use Rattle.std.specs.Prelude.{◌≡◌, bit_or, length};
ghost use Rattle.std.specs.Simd.Lanes.{zip2};

/// How many words are merged at a time.
const LANE: usize = 8;

/// Sets in each word the bits of the other word at its place: whole lanes first, then the words behind them.
pub fn merge(into: &mut [u64], from: &[u64])
    requires { length into.old ≡ length from.now }
    ensures { into.new ≡ zip2 bit_or into.old from.now }
{
    let (lanes, rest) = from.as_chunks::<LANE>();
    for (i, lane) in lanes.iter().enumerate() {
        merge_lane(&mut into[LANE * i..LANE * i + LANE], lane);
    }
    merge_words(&mut into[LANE * lanes.len()..], rest);
}

/// Merges one lane.
fn merge_lane(into: &mut [u64], from: &[u64; LANE])
    requires { length into.old ≡ LANE }
    ensures { into.new ≡ zip2 bit_or into.old from.now }
{
    for i in 0..LANE {
        into[i] |= from[i];
    }
}

/// Merges word by word.
fn merge_words(into: &mut [u64], from: &[u64])
    requires { length into.old ≡ length from.now }
    ensures { into.new ≡ zip2 bit_or into.old from.now }
{
    for i in 0..into.len() {
        into[i] |= from[i];
    }
}
