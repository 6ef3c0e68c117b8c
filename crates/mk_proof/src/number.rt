//! Numbers in decimal, and words with one space between them.
ghost use Rattle.std.specs.Prelude.{◌≡◌, ◌==◌, ◌<◌, false, ◌∷◌, [], length, map, option_map, IfNone, IfOk, IfSome};
ghost use Rattle.std.specs.Fmt.{decimal};
ghost use Rattle.std.specs.List.{All};
ghost use Rattle.mk_proof.specs.Drafts.{AreShort, Finds, IsCut, IsShort};
ghost use Rattle.mk_proof.specs.ProofText.{words_of};

use memchr::memchr;
use std::alloc::{AllocError, Global};

/// The most digits of a number.
const MOST_DIGITS: usize = 7;

/// The text before its first such byte, and the text behind that byte.
pub(crate) fn cut(byte: u8, text: &[u8]) -> Option<(&[u8], &[u8])>
    ensures cut { IfSome result (λ parts. IsCut byte text.now parts.0.now parts.1.now) }
    ensures none { IfNone result (All (λ b. (b == byte) ≡ false) text.now) }
    ensures shorter { IfSome result (λ parts. length parts.1.now < length text.now) }
{
    let place = memchr(byte, text)?;
    Some((&text[..place], &text[place + 1..]))
}

/// The number that a text of at most seven digits writes; none where its first digit is a zero that is not all of it.
pub(crate) fn number(text: &[u8]) -> Option<u32>
    ensures { Finds decimal IsShort text.now result }
{
    if text.is_empty() || text.len() > MOST_DIGITS || (text[0] == b'0' && text.len() > 1) {
        return None;
    }
    let mut number = 0;
    for byte in text {
        if !byte.is_ascii_digit() {
            return None;
        }
        number = number * 10 + u32::from(*byte - b'0');
    }
    Some(number)
}

/// The two numbers that a text writes.
pub(crate) fn pair(text: &[u8]) -> Option<(u32, u32)>
    ensures { Finds (λ numbers. decimal numbers.0 ∷ decimal numbers.1 ∷ []) AreShort (words_of text.now) result }
{
    let (first, second) = cut(b' ', text)?;
    Some((number(first)?, number(second)?))
}

/// All numbers that a text writes. The only error is out of memory.
pub(crate) fn numbers(alloc: Global, text: &[u8]) -> Result<Option<Vec<u32>>, AllocError>
    ensures { IfOk result (λ found.
        Finds (map decimal) (All IsShort) (words_of text.now) (option_map (λ numbers. numbers.items) found)) }
{
    let mut numbers = Vec::new(alloc);
    let mut rest = text;
    'words: while let Some((word, behind)) = cut(b' ', rest) {
        let Some(next) = number(word) else {
            return Ok(None);
        };
        numbers.push(next)?;
        rest = behind;
    }
    let Some(last) = number(rest) else {
        return Ok(None);
    };
    numbers.push(last)?;
    Ok(Some(numbers))
}
