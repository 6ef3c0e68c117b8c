//! What the text of a logical line is that is no command line (POSIX.1-2024 XCU make, "Makefile
//! Syntax" and "Macros").
ghost use Rattle.std.specs.Prelude.{◌≡◌, ◌<◌, ◌≤◌, ◌+◌, ◌^◌, ◌==◌, Ok, Some, length, slice_index};
ghost use Rattle.mk_lines.specs.LogicalLine.{IfLine, LiesIn};
ghost use Rattle.mk_text.specs.Lexical.{equals};
ghost use Rattle.mk_lines.specs.LogicalLines.{assignment, at_colon, at_equals, begins_with_operator, entry, include, is_include, kind_of_text};

use crate::line::{LineKind, Operator};
use crate::references::place_outside;
use crate::words::{are_blanks, count_blanks, split_word};
use mk_name::fault::Kind;
use mk_text::lexical::is_macro_name;

/// Whether a text is that of an include line.
fn is_include(text: &[u8]) -> bool
    ensures { result ≡ is_include text.now }
{
    let (first, later) = split_word(text);
    (first == b"include".as_slice() || first == b"-include".as_slice())
        && !begins_with_operator(later)
}

fn begins_with_operator(text: &[u8]) -> bool
    ensures { result ≡ begins_with_operator text.now }
{
    match text {
        [b':' | b'=', ..] | [b'?' | b'+' | b'!', b'=', ..] => true,
        _ => false,
    }
}

/// The include line of this text.
fn include(text: &[u8]) -> LineKind
    requires short { length text.now < 2 ^ 32 }
    ensures sort { result ≡ include text.now }
    ensures within { LiesIn result (length text.now) }
{
    let (first, _) = split_word(text);
    LineKind::Include {
        hyphen: byte_at(first, 0) == b'-',
        rest: (count_blanks(text) + first.len()) as u32,
    }
}

/// The byte at a place, or NUL past the end.
fn byte_at(text: &[u8], place: usize) -> u8
    ensures { result ≡ slice_index text.now place }
{
    text.get(place).copied().unwrap_or(0)
}

/// An assignment whose operator begins and ends at these places.
fn assignment(
    text: &[u8],
    operator: Operator,
    start: usize,
    end: usize,
) -> Result<Option<LineKind>, Kind>
    requires short { length text.now < 2 ^ 32 }
    requires order { start ≤ end }
    requires within { end ≤ length text.now }
    ensures sort { result ≡ assignment text.now operator start end }
    ensures within { IfLine result (λ kind. LiesIn kind (length text.now)) }
{
    let before = &text[..start];
    let name_start = count_blanks(before);
    let (name, later) = split_word(before);
    if !is_macro_name(name) || !later.is_empty() {
        return Err(Kind::BadAssignment);
    }
    Ok(Some(LineKind::Assign {
        name_start: name_start as u32,
        name_end: (name_start + name.len()) as u32,
        operator,
        value_start: (end + count_blanks(&text[end..])) as u32,
    }))
}

/// What a line is whose first sign is this equals sign.
fn at_equals(text: &[u8], at: usize) -> Result<Option<LineKind>, Kind>
    requires short { length text.now < 2 ^ 32 }
    requires inside { at < length text.now }
    ensures sort { result ≡ at_equals text.now at }
    ensures within { IfLine result (λ kind. LiesIn kind (length text.now)) }
{
    let before = if at == 0 { 0 } else { text[at - 1] };
    match before {
        b'?' => assignment(text, Operator::Conditional, at - 1, at + 1),
        b'+' => assignment(text, Operator::Append, at - 1, at + 1),
        b'!' => Err(Kind::BadAssignment),
        _ => assignment(text, Operator::Delayed, at, at + 1),
    }
}

/// The entry with its colon at this place.
fn entry(text: &[u8], at: usize) -> LineKind
    requires short { length text.now < 2 ^ 32 }
    requires inside { at < length text.now }
    ensures sort { Ok (Some result) ≡ entry text.now at }
    ensures within { LiesIn result (length text.now) }
{
    LineKind::Entry {
        colon: at as u32,
        semicolon: place_outside(b';', b';', &text[at + 1..]).map(|n| (at + 1 + n) as u32),
    }
}

/// What a line is whose first sign is this colon.
fn at_colon(text: &[u8], at: usize) -> Result<Option<LineKind>, Kind>
    requires short { length text.now < 2 ^ 32 }
    requires inside { at < length text.now }
    ensures sort { result ≡ at_colon text.now at }
    ensures within { IfLine result (λ kind. LiesIn kind (length text.now)) }
{
    let behind = &text[at + 1..];
    match (byte_at(behind, 0), byte_at(behind, 1), byte_at(behind, 2)) {
        (b'=', _, _) => assignment(text, Operator::Immediate, at, at + 2),
        (b':', b'=', _) => assignment(text, Operator::Immediate, at, at + 3),
        (b':', b':', b'=') => Err(Kind::BadAssignment),
        (b':', _, _) => Err(Kind::DoubleColon),
        _ => Ok(Some(entry(text, at))),
    }
}

/// What a text is: nothing, the text of a line of this kind, or a fault.
pub fn kind_of_text(text: &[u8]) -> Result<Option<LineKind>, Kind>
    requires short { length text.now < 2 ^ 32 }
    ensures sort { result ≡ kind_of_text text.now }
    ensures within { IfLine result (λ kind. LiesIn kind (length text.now)) }
{
    if are_blanks(text) {
        return Ok(None);
    }
    if is_include(text) {
        return Ok(Some(include(text)));
    }
    match place_outside(b':', b'=', text) {
        None => Err(Kind::NoColon),
        Some(at) if text[at] == b'=' => at_equals(text, at),
        Some(at) => at_colon(text, at),
    }
}
