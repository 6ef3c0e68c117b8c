//! Rows of bits, kept in words of 64.
ghost use Rattle.std.specs.Prelude.{ℕ, ◌≡◌, ◌<◌, ◌↔◌, ◌⊎◌, ◌*◌, IsTrue, length};
ghost use Rattle.mk_index.specs.Bits.{HasBit};

/// How many bits a word has.
const WORD: usize = 64;

/// Sets the bit of a number. The row must have a word for it: one for each 64 numbers.
pub fn set_bit(row: &mut [u64], n: u32)
    requires { n < 64 * length row.old }
    ensures { (k : ℕ) → HasBit row.new k ↔ (HasBit row.old k ⊎ (k ≡ n)) }
{
    row[n as usize / WORD] |= 1 << (n as usize % WORD);
}

/// Whether a row has the bit of a number. The row must have a word for it: one for each 64 numbers.
pub fn has_bit(row: &[u64], n: u32) -> bool
    requires { n < 64 * length row.now }
    ensures { IsTrue result ↔ HasBit row.now n }
{
    (row[n as usize / WORD] >> (n as usize % WORD)) & 1 == 1
}
