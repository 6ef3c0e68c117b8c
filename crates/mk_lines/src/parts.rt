//! The parts of a logical line's text (POSIX.1-2024 XCU make, "Makefile Syntax").
ghost use Rattle.std.specs.Prelude.{◌≡◌, ◌≤◌, IfSome, length};
ghost use Rattle.mk_lines.specs.LogicalLine.{LiesIn, before_semicolon, parted};

use crate::line::{LineKind, Operator};
use std::marker::Model;

/// The parts of an assignment.
#[derive(Debug, Drop)]
pub struct Assignment<'l> {
    name: &'l [u8],
    operator: Operator,
    value: &'l [u8],
}

impl<'l> Model for Assignment<'l> {
    ghost use Rattle.mk_lines.specs.Parts.{AssignmentParts};

    ghost Value = { AssignmentParts };

    ghost view = { λ a. record {
      name = a.name.now;
      operator = a.operator;
      value = a.value.now;
    } };
}

impl<'l> Assignment<'l> {
    /// The macro's name.
    pub fn name(&self) -> &'l [u8]
        ensures { result.now ≡ self.now.name }
    {
        self.name
    }

    /// The operator.
    pub fn operator(&self) -> Operator
        ensures { result ≡ self.now.operator }
    {
        self.operator
    }

    /// The value: all behind the operator and the blanks after it.
    pub fn value(&self) -> &'l [u8]
        ensures { result.now ≡ self.now.value }
    {
        self.value
    }
}

/// The parts of an entry.
#[derive(Debug, Drop)]
pub struct EntryParts<'l> {
    targets: &'l [u8],
    prerequisites: &'l [u8],
    has_command: bool,
}

impl<'l> Model for EntryParts<'l> {
    ghost use Rattle.mk_lines.specs.Parts as spec;

    ghost Value = { spec.EntryParts };

    ghost view = { λ a. record {
      targets = a.targets.now;
      prerequisites = a.prerequisites.now;
      has_command = a.has_command;
    } };
}

impl<'l> EntryParts<'l> {
    /// What stands before the colon.
    pub fn targets(&self) -> &'l [u8]
        ensures { result.now ≡ self.now.targets }
    {
        self.targets
    }

    /// What stands behind the colon, and before the semicolon where there is one.
    pub fn prerequisites(&self) -> &'l [u8]
        ensures { result.now ≡ self.now.prerequisites }
    {
        self.prerequisites
    }

    /// Whether a command follows behind a semicolon.
    pub fn has_command(&self) -> bool
        ensures { result ≡ self.now.has_command }
    {
        self.has_command
    }
}

/// The parts of an include line.
#[derive(Debug, Drop)]
pub struct IncludeParts<'l> {
    hyphen: bool,
    rest: &'l [u8],
}

impl<'l> Model for IncludeParts<'l> {
    ghost use Rattle.mk_lines.specs.Parts as spec;

    ghost Value = { spec.IncludeParts };

    ghost view = { λ a. record { hyphen = a.hyphen; rest = a.rest.now } };
}

impl<'l> IncludeParts<'l> {
    /// Whether a hyphen stands before the line's first word.
    pub fn has_hyphen(&self) -> bool
        ensures { result ≡ self.now.hyphen }
    {
        self.hyphen
    }

    /// All that stands behind the line's first word, the blank too.
    pub fn rest(&self) -> &'l [u8]
        ensures { result.now ≡ self.now.rest }
    {
        self.rest
    }
}

/// The parts of a logical line's text.
#[derive(Debug, Drop)]
pub enum Parts<'l> {
    Assign(Assignment<'l>),
    Entry(EntryParts<'l>),
    Recipe,
    Include(IncludeParts<'l>),
}

/// The parts of a text of this kind.
pub(crate) fn parted(kind: LineKind, text: &[u8]) -> Parts<'_>
    requires { LiesIn kind (length text.now) }
    ensures { result ≡ parted kind text.now }
{
    match kind {
        LineKind::Assign {
            name_start,
            name_end,
            operator,
            value_start,
            ..
        } => Parts::Assign(Assignment {
            name: &text[..name_end as usize][name_start as usize..],
            operator,
            value: &text[value_start as usize..],
        }),
        LineKind::Entry { colon, semicolon } => Parts::Entry(EntryParts {
            targets: &text[..colon as usize],
            prerequisites: &before_semicolon(text, semicolon)[colon as usize + 1..],
            has_command: semicolon.is_some(),
        }),
        LineKind::Recipe => Parts::Recipe,
        LineKind::Include { hyphen, rest } => Parts::Include(IncludeParts {
            hyphen,
            rest: &text[rest as usize..],
        }),
    }
}

/// What stands before the semicolon, where there is one.
fn before_semicolon(text: &[u8], semicolon: Option<u32>) -> &[u8]
    requires { IfSome semicolon (λ s. s ≤ length text.now) }
    ensures { result.now ≡ before_semicolon text.now semicolon }
{
    match semicolon {
        Some(end) => &text[..end as usize],
        None => text,
    }
}
