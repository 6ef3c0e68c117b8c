//! Substitutions at the ends of words (POSIX.1-2024 XCU make, "Macros"), in texts that may be so
//! long and no longer.
ghost use Rattle.std.specs.Prelude.{◌≡◌, ◌≤◌, ◌<◌, ◌+◌, ◌++◌, ◌==◌, ℕ, List, length, IfErr, IfNone, IfOk, IfSome, OnOk};
ghost use Rattle.std.specs.List.{position};
ghost use Rattle.mk_text.specs.Lexical.{is_blank};
ghost use Rattle.mk_macro.specs.Limits.{IsOver};
ghost use Rattle.mk_macro.specs.Substitution.{changed, changed_word, with_change};
ghost use Rattle.mk_macro.specs.Words.{AreWords, ComesToSame, IsOneWord, reach};

use crate::fault::unnamed;
use crate::item::Change;
use memchr::memchr2;
use mk_name::fault::{Halt, Kind};
use std::alloc::Global;

/// The place of the first blank.
fn first_blank(text: &[u8]) -> Option<usize>
    ensures place { result ≡ position is_blank text.now }
    ensures inside { IfSome result (λ at. at < length text.now) }
{
    memchr2(b' ', b'\t', text)
}

/// What stands before the first blank, that blank, and what stands behind it.
fn cut_word(text: &[u8]) -> Option<(&[u8], &[u8], &[u8])>
    ensures none { IfNone result (IsOneWord text.now) }
    ensures some { IfSome result (λ cut. AreWords text.now cut.0.now cut.1.now cut.2.now) }
    ensures shorter { IfSome result (λ cut. length cut.2.now < length text.now) }
{
    match first_blank(text) {
        Some(at) => Some((&text[..at], &text[at..at + 1], &text[at + 1..])),
        None => None,
    }
}

/// Puts bytes at the end, if the text is then no longer than the limit.
fn push_bytes(out: &mut Vec<u8>, alloc: Global, bytes: &[u8], limit: usize) -> Result<(), Halt>
    ensures text { OnOk result (out.new.items ≡ out.old.items ++ bytes.now) }
    ensures within { OnOk result (length out.new.items ≤ limit) }
    ensures over { IfErr result (λ halt.
        IsOver halt limit (length out.old.items + length bytes.now)) }
{
    if out.len() + bytes.len() > limit {
        return Err(unnamed(alloc, Kind::ExpansionTooLarge));
    }
    out.extend_from_slice(bytes)?;
    Ok(())
}

/// A word in two parts: what stays of it, and what comes in the place of its end.
fn parts<'a>(change: &Change<'a>, word: &'a [u8]) -> (&'a [u8], &'a [u8])
    ensures { result.0.now ++ result.1.now ≡ changed_word change.now word.now }
{
    if word.is_empty() {
        return (word, word);
    }
    match word.strip_suffix(change.from()) {
        Some(front) => (front, change.to()),
        None => (word, &word[word.len()..]),
    }
}

/// Puts a word at the end, with its end changed.
fn push_word(
    out: &mut Vec<u8>,
    alloc: Global,
    change: &Change,
    word: &[u8],
    limit: usize,
) -> Result<(), Halt>
    ensures text { OnOk result (out.new.items ≡ out.old.items ++ changed_word change.now word.now) }
    ensures within { OnOk result (length out.new.items ≤ limit) }
    ensures over { IfErr result (λ halt.
        IsOver halt limit (length out.old.items + length (changed_word change.now word.now))) }
{
    let (front, end) = parts(change, word);
    push_bytes(out, alloc, front, limit)?;
    push_bytes(out, alloc, end, limit)
}

/// How many bytes at the end of a text may still be changed when it goes on: as many as are looked
/// for, and one at least, which says that there is a word.
fn reach(change: &Change) -> usize
    ensures { result ≡ reach (Some change.now) }
{
    change.from().len().max(1)
}

/// Puts at the end what the words of a text that may go on come to, as far as no later text changes
/// it, and gives what is left of the text.
fn push_words<'a>(
    out: &mut Vec<u8>,
    alloc: Global,
    change: &Change,
    text: &'a [u8],
    limit: usize,
) -> Result<&'a [u8], Halt>
    ensures same { IfOk result (λ left.
        ComesToSame (Some change.now) text.now out.old.items left.now out.new.items) }
    ensures word { IfOk result (λ left. IsOneWord left.now) }
    ensures short { IfOk result (λ left. length left.now ≤ reach (Some change.now)) }
    ensures inside { IfOk result (λ left. length left.now ≤ length text.now) }
    ensures over { IfErr result (λ halt. (later : List ℕ) → IsOver halt limit
        (length out.old.items + length (with_change change.now (text.now ++ later)))) }
{
    let mut rest = text;
    'words: while let Some((word, blank, others)) = cut_word(rest) {
        push_word(out, alloc, change, word, limit)?;
        push_bytes(out, alloc, blank, limit)?;
        rest = others;
    }
    let end = rest.len().saturating_sub(reach(change));
    push_bytes(out, alloc, &rest[..end], limit)?;
    Ok(&rest[end..])
}

/// Puts a text at the end, with the end of each of its words changed.
fn push_with_change(
    out: &mut Vec<u8>,
    alloc: Global,
    change: &Change,
    text: &[u8],
    limit: usize,
) -> Result<(), Halt>
    ensures text { OnOk result (out.new.items ≡ out.old.items ++ with_change change.now text.now) }
    ensures within { OnOk result (length out.new.items ≤ limit) }
    ensures over { IfErr result (λ halt.
        IsOver halt limit (length out.old.items + length (with_change change.now text.now))) }
{
    let left = push_words(out, alloc, change, text, limit)?;
    push_word(out, alloc, change, left, limit)
}

/// Puts at the end what a text that may go on comes to, with the substitution made where there is
/// one, as far as no later text changes it, and gives what is left of the text. What comes to be
/// longer than the limit, whatever follows, is refused before it is built.
pub fn push_settled<'a>(
    out: &mut Vec<u8>,
    alloc: Global,
    change: &Option<Change>,
    text: &'a [u8],
    limit: usize,
) -> Result<&'a [u8], Halt>
    ensures same { IfOk result (λ left.
        ComesToSame change.now text.now out.old.items left.now out.new.items) }
    ensures short { IfOk result (λ left. length left.now ≤ reach change.now) }
    ensures inside { IfOk result (λ left. length left.now ≤ length text.now) }
    ensures over { IfErr result (λ halt. (later : List ℕ) → IsOver halt limit
        (length out.old.items + length (changed change.now (text.now ++ later)))) }
{
    let Some(change) = change else {
        push_bytes(out, alloc, text, limit)?;
        return Ok(&text[text.len()..]);
    };
    push_words(out, alloc, change, text, limit)
}

/// Puts a text at the end, with the substitution made where there is one. What comes to be longer
/// than the limit is refused before it is built, and then the text is left with some beginning of
/// what was to be put.
pub fn push_changed(
    out: &mut Vec<u8>,
    alloc: Global,
    change: &Option<Change>,
    text: &[u8],
    limit: usize,
) -> Result<(), Halt>
    ensures text { OnOk result (out.new.items ≡ out.old.items ++ changed change.now text.now) }
    ensures within { OnOk result (length out.new.items ≤ limit) }
    ensures over { IfErr result (λ halt.
        IsOver halt limit (length out.old.items + length (changed change.now text.now))) }
{
    match change {
        Some(change) => push_with_change(out, alloc, change, text, limit),
        None => push_bytes(out, alloc, text, limit),
    }
}
