//! A logical line, and the text where it stands.
ghost use Rattle.std.specs.Prelude.{◌≡◌};
ghost use Rattle.mk_rules.specs.Placed.{IsReportedAt, begins_with_command};

use mk_lines::line::{Line, LineKind};
use mk_name::fault::{Halt, Source};
use std::alloc::{AllocError, Global};
use std::marker::Model;

/// A logical line, the text where it stands, and whether a command line stands right below it there.
#[derive(Drop)]
pub(crate) struct Placed<'a, 'text> {
    pub(crate) source: &'a Source,
    pub(crate) line: &'a Line<'text>,
    pub(crate) command_below: bool,
}

impl<'a, 'text> Model for Placed<'a, 'text> {
    ghost use Rattle.mk_rules.specs.Placed.{Placed};

    ghost Value = { Placed };

    ghost view = { λ a. record {
      source = a.source.now;
      line = a.line.now;
      command_below = a.command_below;
    } };
}

/// Whether a command line stands first.
pub(crate) fn begins_with_command(lines: &[Line]) -> bool
    ensures { result ≡ begins_with_command lines.now }
{
    match lines.first() {
        Some(line) => matches!(line.kind(), LineKind::Recipe),
        None => false,
    }
}

impl<'a, 'text> Placed<'a, 'text> {
    /// The halt, where a fault is reported at the line.
    pub(crate) fn reports(&self, alloc: Global, halt: Halt) -> Halt
        ensures { IsReportedAt self.now halt result }
    {
        match self.source.copy(alloc) {
            Ok(source) => halt.at(source, self.line.first_line()),
            Err(AllocError) => Halt::Memory,
        }
    }
}
