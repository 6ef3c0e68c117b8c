//! The logical lines of a makefile (POSIX.1-2024 XCU make, "Makefile Syntax").
ghost use Rattle.std.specs.Prelude.{◌≡◌, ◌<◌, ◌^◌, ◌==◌, false, ℕ, List, [], ◌∷◌, Ok, Some, IfOk, length, map, slice_index};
ghost use Rattle.std.specs.List.{flat_map, join_with_byte};
ghost use Rattle.std.specs.Option.{unwrap_or};
ghost use Rattle.mk_name.specs.Gives.{Gives};
ghost use Rattle.mk_text.specs.Lexical.{physical_lines, space, tab};
ghost use Rattle.mk_lines.specs.LogicalLine.{IfLine, LiesIn};
ghost use Rattle.mk_lines.specs.LogicalLines.{fault_at, line_at, line_pieces, logical_lines, opening, pieces_of, kind_of, kind_of_command, kind_of_text};
ghost use Rattle.mk_lines.specs.GivesLines.{GivesLines};
ghost use Rattle.mk_lines.specs.Slices.{StandIn};

use crate::blocks::{join_pieces, pieces_of, split_block, split_piece};
use crate::line::{Line, LineKind};
use crate::sort::kind_of_text;
use crate::words::{are_blanks, past_blanks};
use mk_name::fault::{Fault, Halt, Kind, Source};
use std::alloc::Global;

/// A makefile's text has at most so many bytes (profile).
pub const TEXT_LIMIT: usize = 1_048_576;

fn begins_with_tab(block: &[u8]) -> bool
    ensures { result ≡ (slice_index block.now 0 == tab) }
{
    block.first() == Some(&b'\t')
}

/// What a block is that begins with a tab and is not blank.
fn kind_of_command(below: bool, block: &[u8]) -> Result<Option<LineKind>, Kind>
    ensures sort { result ≡ kind_of_command below block.now }
    ensures within { (n : ℕ) → IfLine result (λ kind. LiesIn kind n) }
{
    if below {
        return Ok(Some(LineKind::Recipe));
    }
    match past_blanks(block) {
        [b'#', ..] => Ok(None),
        _ => Err(Kind::StrayRecipe),
    }
}

/// Whether an entry is open behind a line of this kind.
fn opens(below: bool, kind: LineKind) -> bool
    ensures { result ≡ unwrap_or (opening kind) below }
{
    match kind {
        LineKind::Recipe => below,
        LineKind::Entry { .. } => true,
        LineKind::Assign { .. } | LineKind::Include { .. } => false,
    }
}

/// A fault of a makefile's line.
fn fault_at(alloc: Global, kind: Kind, place: u32) -> Halt
    ensures { result ≡ Halt.Fault (fault_at kind place) }
{
    let place = u64::from(place);
    Halt::Fault(Fault::unnamed(alloc, kind, Source::Makefile, place))
}

/// The line that a block is which begins with a tab and is not blank.
fn command_line<'a>(
    alloc: Global,
    below: bool,
    number: u32,
    block: &'a [u8],
) -> Result<Option<Line<'a>>, Halt>
    requires { slice_index block.now 0 ≡ tab }
    ensures { Gives result (line_at number (physical_lines block.now)
        (kind_of_command below block.now)) }
{
    match kind_of_command(below, block) {
        Err(kind) => Err(fault_at(alloc, kind, number)),
        Ok(None) => Ok(None),
        Ok(Some(kind)) => Ok(Some(Line::of_piece(kind, number, &block[1..]))),
    }
}

/// The line that a block of one piece is.
fn line_of_piece<'a>(alloc: Global, number: u32, piece: &'a [u8]) -> Result<Option<Line<'a>>, Halt>
    requires { length piece.now < 2 ^ 32 }
    ensures { (block : List (List ℕ)) → line_pieces block ≡ piece.now ∷ [] →
        Gives result (line_at number block (kind_of_text piece.now)) }
{
    match kind_of_text(piece) {
        Err(kind) => Err(fault_at(alloc, kind, number)),
        Ok(None) => Ok(None),
        Ok(Some(kind)) => Ok(Some(Line::of_piece(kind, number, piece))),
    }
}

/// The line that a block of several pieces is.
fn line_of_pieces<'a>(
    alloc: Global,
    number: u32,
    pieces: Vec<&'a [u8]>,
) -> Result<Option<Line<'a>>, Halt>
    requires { length (join_with_byte space (map (λ piece. piece.now) pieces.items)) < 2 ^ 32 }
    ensures { (block : List (List ℕ)) →
        line_pieces block ≡ map (λ piece. piece.now) pieces.entry.items →
        Gives result (line_at number block
        (kind_of_text (join_with_byte space (map (λ piece. piece.now) pieces.entry.items)))) }
{
    let text = join_pieces(alloc, &pieces)?;
    match kind_of_text(&text) {
        Err(kind) => Err(fault_at(alloc, kind, number)),
        Ok(None) => Ok(None),
        Ok(Some(kind)) => Ok(Some(Line::of_pieces(alloc, kind, number, pieces, text)?)),
    }
}

/// The line that a block is which does not begin with a tab.
fn text_line<'a>(alloc: Global, number: u32, block: &'a [u8]) -> Result<Option<Line<'a>>, Halt>
    requires text { (slice_index block.now 0 == tab) ≡ false }
    requires short { length block.now < 2 ^ 32 }
    ensures { Gives result (line_at number (physical_lines block.now)
        (kind_of_text (join_with_byte space (pieces_of (physical_lines block.now))))) }
{
    match split_piece(block) {
        (piece, None) => line_of_piece(alloc, number, piece),
        (_, Some(_)) => line_of_pieces(alloc, number, pieces_of(alloc, block)?),
    }
}

/// The line, if any, that a block is which may stand below an entry that is open.
fn line_of_block<'a>(
    alloc: Global,
    below: bool,
    number: u32,
    block: &'a [u8],
) -> Result<Option<Line<'a>>, Halt>
    requires { length block.now < 2 ^ 32 }
    ensures { Gives result (line_at number (physical_lines block.now)
        (kind_of below (physical_lines block.now))) }
{
    if are_blanks(block) {
        return Ok(None);
    }
    if begins_with_tab(block) {
        return command_line(alloc, below, number, block);
    }
    text_line(alloc, number, block)
}

/// The logical lines of a makefile's text, in their order (POSIX.1-2024 XCU make, "Makefile
/// Syntax"). The pieces of the lines are slices of the text, one behind another.
///
/// An escaped newline, one right behind a backslash, joins its line to the next; in a command line it
/// stays. In any other line the pieces that it parts have one space between them in place of the
/// backslash, the newline and the blanks behind it, and the first `#` ends the line (profile: also
/// behind a backslash or in a reference).
///
/// Errors, in the source `Makefile` and without names: a text of more than [`TEXT_LIMIT`] bytes is
/// `TextTooLarge` at line 0. Else the first line that is wrong is answered, at its first physical line:
/// `NoColon` where no `:` or `=` stands outside of references;
/// `DoubleColon`; `BadAssignment` for `!=`, `:::=` and an assignment to what is no macro's name;
/// `StrayRecipe` for a command line with no entry above it (profile: neither an empty line nor a
/// comment ends one, an assignment or an include line does). Out of memory may come in place of any answer.
pub fn lines<'a>(alloc: Global, text: &'a [u8]) -> Result<Vec<Line<'a>>, Halt>
    ensures lines { GivesLines result (logical_lines text.now) }
    ensures slices { IfOk result (λ lines. StandIn text.now (flat_map (λ line. line.pieces) lines.items)) }
{
    if text.len() > TEXT_LIMIT {
        return Err(fault_at(alloc, Kind::TextTooLarge, 0));
    }
    let mut found = Vec::new(alloc);
    let mut below = false;
    let mut number = 1;
    let mut rest = Some(text);
    'blocks: while let Some(text) = rest {
        let block = split_block(text);
        if let Some(line) = line_of_block(alloc, below, number, block.bytes)? {
            below = opens(below, line.kind());
            found.push(line)?;
        }
        number += block.line_count as u32;
        rest = block.later;
    }
    Ok(found)
}
