//! Bytes outside of macro references (POSIX.1-2024 XCU make, "Macros").
ghost use Rattle.std.specs.Prelude.{◌≡◌, ◌≢◌, ◌<◌, ◌≤◌, ◌+◌, ◌==◌, ◌||◌, ℕ, Bool, IfSome, length, drop};
ghost use Rattle.std.specs.Option.{option_map};
ghost use Rattle.mk_lines.specs.Outside.{Standing, dollar, place_from, place_outside};
ghost use Rattle.mk_lines.specs.Outside.Standing.{Opening, Within};

use memchr::{memchr, memchr3};

/// How many bytes stand up to the first closing one, this included; all where there is none.
fn count_through(closing: u8, text: &[u8]) -> usize
    ensures within { result ≤ length text.now }
    ensures rest { (test : ℕ → Bool) → place_from test (Within closing) text.now
        ≡ option_map (λ n. n + result) (place_outside test (drop result text.now)) }
{
    match memchr(closing, text) {
        Some(end) => end + 1,
        None => text.len(),
    }
}

/// How many bytes behind a dollar sign belong to its reference.
fn reference_length(text: &[u8]) -> usize
    ensures within { result ≤ length text.now }
    ensures rest { (test : ℕ → Bool) → place_from test Opening text.now
        ≡ option_map (λ n. n + result) (place_outside test (drop result text.now)) }
{
    match text {
        [b'(', inner @ ..] => 1 + count_through(b')', inner),
        [b'{', inner @ ..] => 1 + count_through(b'}', inner),
        [_, ..] => 1,
        [] => 0,
    }
}

/// The place of the first byte outside of references that is one of two.
pub fn place_outside(first: u8, second: u8, text: &[u8]) -> Option<usize>
    requires first { first ≢ dollar }
    requires second { second ≢ dollar }
    ensures place { result ≡ place_outside (λ b. b == first || b == second) text.now }
    ensures within { IfSome result (λ place. place < length text.now) }
{
    let mut start = 0;
    'search: while let Some(n) = memchr3(b'$', first, second, &text[start..]) {
        let at = start + n;
        if text[at] != b'$' {
            return Some(at);
        }
        start = at + 1 + reference_length(&text[at + 1..]);
    }
    None
}
