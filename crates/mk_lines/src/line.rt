//! A logical line of a makefile: its kind, where it begins, its text, and the parts of that.
ghost use Rattle.std.specs.Prelude.{◌≡◌, ◌∷◌, [], IfOk, length, map};
ghost use Rattle.std.specs.List.{join_with_byte};
ghost use Rattle.mk_lines.specs.LogicalLine.{LiesIn, parts_of, text_of};

use crate::parts::{Parts, parted};
use std::alloc::{AllocError, Global};
use std::marker::Model;
use std::mem::size_of;
use std::slice;

/// What an assignment does with its value (POSIX.1-2024 XCU make, "Macros").
#[derive(Clone, Copy, Debug, PartialEq, Eq)]
pub enum Operator {
    /// `=`: the value is expanded where the macro is used.
    Delayed,
    /// `::=`, and `:=` by the profile: the value is expanded at this line.
    Immediate,
    /// `+=`: the value is added to the one that the macro has.
    Append,
    /// `?=`: the value counts only where the macro has none yet.
    Conditional,
}

/// The kind of a logical line, with the places in the line's text that part it (POSIX.1-2024 XCU
/// make, "Makefile Syntax"). A place counts the bytes before it, and is at most the text's length.
/// The text is the line's pieces with one space between each two.
#[derive(Clone, Copy, Debug, PartialEq, Eq)]
pub enum LineKind {
    /// An assignment.
    Assign {
        /// The macro's name: where it begins, and where it has ended.
        name_start: u32,
        name_end: u32,
        operator: Operator,
        /// Where the value begins: behind the operator and the blanks after it.
        value_start: u32,
    },
    /// An entry: targets up to the colon, prerequisites up to the semicolon, where there is one, and
    /// then a command.
    Entry {
        colon: u32,
        semicolon: Option<u32>,
    },
    /// A command line.
    Recipe,
    /// An include line.
    Include {
        /// Whether a hyphen stands before its first word.
        hyphen: bool,
        /// Where that word has ended.
        rest: u32,
    },
}

#[derive(Debug, Drop)]
enum Pieces<'a> {
    One(&'a [u8]),
    /// Few lines have several, so these stand apart, and a line is small.
    Several(Box<Joined<'a>>),
}

/// Several pieces, and the text that they make up.
#[derive(Debug, Drop)]
struct Joined<'a> {
    pieces: Vec<&'a [u8]>,
    text: Vec<u8>,
}

/// A logical line of the text that lives for `'a`.
#[derive(Debug, Drop)]
pub struct Line<'a> {
    kind: LineKind,
    first_line: u32,
    pieces: Pieces<'a>,
}

// A makefile may have as many lines as bytes, and all are kept at once.
const _: () = prove!(size_of::<Line<'static>>() == 48);

impl<'a> Model for Line<'a> {
    ghost use Rattle.mk_lines.specs.LogicalLine.{LogicalLine};
    ghost use Rattle.mk_lines.specs.Pieces.{IsParted, pieces_in};

    ghost Value = { LogicalLine };

    ghost view = { λ a. record {
      kind = a.kind;
      first_line = a.first_line;
      pieces = pieces_in a.pieces;
    } };

    ghost invariant = { λ a. IsParted a.kind a.pieces };
}

impl<'a> Line<'a> {
    /// The line of one piece.
    pub(crate) fn of_piece(kind: LineKind, first_line: u32, piece: &'a [u8]) -> Line<'a>
        requires { LiesIn kind (length piece.now) }
        ensures { result ≡ record {
          kind = kind;
          first_line = first_line;
          pieces = piece.now ∷ [];
        } }
    {
        Line {
            kind,
            first_line,
            pieces: Pieces::One(piece),
        }
    }

    /// The line of these pieces, which make up this text.
    pub(crate) fn of_pieces(
        alloc: Global,
        kind: LineKind,
        first_line: u32,
        pieces: Vec<&'a [u8]>,
        text: Vec<u8>,
    ) -> Result<Line<'a>, AllocError>
        requires joined { text.items ≡ join_with_byte 32 (map (λ piece. piece.now) pieces.items) }
        requires within { LiesIn kind (length text.items) }
        ensures { IfOk result (λ line. line ≡ record {
          kind = kind;
          first_line = first_line;
          pieces = map (λ piece. piece.now) pieces.entry.items;
        }) }
    {
        let joined = Box::new(alloc, Joined { pieces, text })?;
        Ok(Line {
            kind,
            first_line,
            pieces: Pieces::Several(joined),
        })
    }

    /// The line's kind, with the places in its text that part it.
    pub fn kind(&self) -> LineKind
        ensures kind { result ≡ self.now.kind }
        ensures within { LiesIn result (length (text_of self.now)) }
    {
        self.kind
    }

    /// The number of the line's first physical line, from 1.
    pub fn first_line(&self) -> u64
        ensures { result ≡ self.now.first_line }
    {
        u64::from(self.first_line)
    }

    /// The parts of the makefile that make up the line, in their order: slices of the text that was
    /// read. The line's text is these pieces with one space between each two.
    pub fn pieces(&self) -> &[&'a [u8]]
        ensures { map (λ piece. piece.now) result.now ≡ self.now.pieces }
    {
        match &self.pieces {
            Pieces::One(piece) => slice::from_ref(piece),
            Pieces::Several(joined) => joined.pieces.as_slice(),
        }
    }

    /// The line's text: its pieces with one space between each two.
    pub fn text(&self) -> &[u8]
        ensures { result.now ≡ text_of self.now }
    {
        match &self.pieces {
            Pieces::One(piece) => piece,
            Pieces::Several(joined) => joined.text.as_slice(),
        }
    }

    /// The parts of the line's text.
    pub fn parts(&self) -> Parts<'_>
        ensures { result ≡ parts_of self.now }
    {
        parted(self.kind(), self.text())
    }
}
