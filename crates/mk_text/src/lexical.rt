//! Blanks, macros' names and physical lines: what more than one reader cuts texts by.
ghost use Rattle.std.specs.Prelude.{◌≡◌, ◌<◌, ◌∷◌, [], length, map, IfOk, IfSome};
ghost use Rattle.std.specs.List.{list_all};
ghost use Rattle.std.specs.Option.{option_map_or};
ghost use Rattle.mk_text.specs.Lexical.{is_blank, physical_lines, is_macro_byte, is_macro_name};

use memchr::memchr;
use std::alloc::{AllocError, Global};

/// Whether the byte is a space or a tab.
pub fn is_blank(byte: u8) -> bool
    ensures { result ≡ is_blank byte }
{
    byte == b' ' || byte == b'\t'
}

/// Whether a byte may stand in a macro's name.
fn is_macro_byte(byte: u8) -> bool
    ensures { result ≡ is_macro_byte byte }
{
    !is_blank(byte) && !matches!(byte, b'$' | b'(' | b')' | b'{' | b'}' | b':' | b'=' | b'#')
}

fn are_macro_bytes(text: &[u8]) -> bool
    ensures { result ≡ list_all is_macro_byte text.now }
{
    text.iter().all(|byte| is_macro_byte(*byte))
}

/// Whether the text may be a macro's name (POSIX.1-2024 XCU make, "Macros", and the profile): one byte or
/// more, none of them a blank or one of `$ ( ) { } : = #`.
pub fn is_macro_name(text: &[u8]) -> bool
    ensures { result ≡ is_macro_name text.now }
{
    !text.is_empty() && are_macro_bytes(text)
}

/// The first physical line, and what stands behind its newline where it has one.
pub fn split_line(text: &[u8]) -> (&[u8], Option<&[u8]>)
    ensures lines { physical_lines text.now ≡ result.0.now
        ∷ option_map_or (λ rest. physical_lines rest.now) result.1 [] }
    ensures less { IfSome result.1 (λ rest. length rest.now < length text.now) }
{
    match memchr(b'\n', text) {
        Some(end) => (&text[..end], Some(&text[end + 1..])),
        None => (text, None),
    }
}

/// The physical lines of a text: what stands between its newlines. The only error is out of memory.
pub fn physical_lines(alloc: Global, text: &[u8]) -> Result<Vec<&[u8]>, AllocError>
    ensures { IfOk result (λ lines. map (λ line. line.now) lines.items ≡ physical_lines text.now) }
{
    let mut lines = Vec::new(alloc);
    let mut rest = Some(text);
    'lines: while let Some(text) = rest {
        let (line, later) = split_line(text);
        lines.push(line)?;
        rest = later;
    }
    Ok(lines)
}
