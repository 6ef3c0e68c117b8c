//! The blocks of a makefile, and their pieces (POSIX.1-2024 XCU make, "Makefile Syntax").
ghost use Rattle.std.specs.Prelude.{◌≡◌, ◌<◌, ◌≤◌, ◌+◌, ◌-◌, ◌==◌, [], ◌∷◌, ◌++◌, IfOk, IfSome, if◌then◌else◌, length, map, take};
ghost use Rattle.std.specs.List.{before_first, join_with_byte, list_any};
ghost use Rattle.std.specs.Option.{option_map_or};
ghost use Rattle.mk_text.specs.Lexical.{newline, physical_lines, space, number_sign};
ghost use Rattle.mk_lines.specs.Blocks.{blocks_of, ends_in_backslash};
ghost use Rattle.mk_lines.specs.LogicalLines.{pieces_of, without_backslashes, without_comment};

use crate::words::past_blanks;
use memchr::memchr;
use mk_text::lexical::split_line;
use std::alloc::{AllocError, Global};

fn ends_in_backslash(line: &[u8]) -> bool
    ensures { result ≡ ends_in_backslash line.now }
{
    line.last() == Some(&b'\\')
}

/// The first block of a text.
#[derive(Clone, Copy, Debug)]
pub struct Block<'a> {
    /// Its physical lines, with the escaped newlines between them.
    pub bytes: &'a [u8],
    /// How many physical lines it has.
    pub line_count: u64,
    /// What stands behind its closing newline where it has one.
    pub later: Option<&'a [u8]>,
}

/// The first block.
pub fn split_block(text: &[u8]) -> Block<'_>
    ensures blocks { blocks_of (physical_lines text.now) ≡ physical_lines result.bytes.now
        ∷ option_map_or (λ rest. blocks_of (physical_lines rest.now)) result.later [] }
    ensures whole { text.now ≡ result.bytes.now
        ++ option_map_or (λ rest. newline ∷ rest.now) result.later [] }
    ensures count { result.line_count ≡ length (physical_lines result.bytes.now) }
    ensures less { result.line_count + option_map_or (λ rest. length rest.now + 1) result.later 0
        ≤ length text.now + 1 }
{
    let mut line_count = 1;
    let mut start = 0;
    'lines: while let Some(n) = memchr(b'\n', &text[start..]) {
        let end = start + n;
        if !ends_in_backslash(&text[start..end]) {
            return Block {
                bytes: &text[..end],
                line_count,
                later: Some(&text[end + 1..]),
            };
        }
        line_count += 1;
        start = end + 1;
    }
    Block {
        bytes: text,
        line_count,
        later: None,
    }
}

/// A physical line without the backslash of its newline, where that is escaped.
fn unescaped(line: &[u8], is_escaped: bool) -> &[u8]
    ensures { result.now ≡ (if is_escaped then take (length line.now - 1) line.now else line.now) }
{
    if is_escaped {
        &line[..line.len().saturating_sub(1)]
    } else {
        line
    }
}

/// What stands before the first number sign, and whether there is one.
fn split_comment(line: &[u8]) -> (&[u8], bool)
    ensures before { result.0.now ≡ before_first (λ b. b == number_sign) line.now }
    ensures there { result.1 ≡ list_any (λ b. b == number_sign) line.now }
{
    match memchr(b'#', line) {
        Some(end) => (&line[..end], true),
        None => (line, false),
    }
}

/// The first piece of a block, with the blanks at its front, and what of the block has the later ones.
pub fn split_piece(block: &[u8]) -> (&[u8], Option<&[u8]>)
    ensures pieces { without_comment (without_backslashes (physical_lines block.now)) ≡ result.0.now
        ∷ option_map_or (λ rest. without_comment (without_backslashes (physical_lines rest.now)))
        result.1 [] }
    ensures less { IfSome result.1 (λ rest. length rest.now < length block.now) }
{
    let (line, later) = split_line(block);
    let line = unescaped(line, later.is_some());
    match split_comment(line) {
        (piece, true) => (piece, None),
        (piece, false) => (piece, later),
    }
}

/// All pieces of a block.
pub fn pieces_of<'a>(alloc: Global, block: &'a [u8]) -> Result<Vec<&'a [u8]>, AllocError>
    ensures { IfOk result (λ pieces.
        map (λ piece. piece.now) pieces.items ≡ pieces_of (physical_lines block.now)) }
{
    let mut pieces = Vec::new(alloc);
    let (first, mut rest) = split_piece(block);
    pieces.push(first)?;
    'pieces: while let Some(block) = rest {
        let (piece, later) = split_piece(block);
        pieces.push(past_blanks(piece))?;
        rest = later;
    }
    Ok(pieces)
}

/// Pieces with one space between each two.
pub fn join_pieces(alloc: Global, pieces: &[&[u8]]) -> Result<Vec<u8>, AllocError>
    ensures { IfOk result (λ text.
        text.items ≡ join_with_byte space (map (λ piece. piece.now) pieces.now)) }
{
    let mut text = Vec::new(alloc);
    for (i, piece) in pieces.iter().enumerate() {
        if i > 0 {
            text.push(b' ')?;
        }
        text.extend_from_slice(piece)?;
    }
    Ok(text)
}
