//! A text that is cut into its lines.
ghost use Rattle.std.specs.Prelude.{◌≡◌, IfOk};
ghost use Rattle.std.specs.Result.{result_map_both};
ghost use Rattle.mk_name.specs.Gives.{Gives};
ghost use Rattle.mk_lines.specs.LogicalLines.{logical_lines};
ghost use Rattle.mk_include.specs.Includes.{reported_in};

use mk_lines::line::Line;
use mk_lines::lines::lines;
use mk_name::fault::{Fault, Halt, Source};
use mk_name::name::Name;
use std::alloc::{AllocError, Global};
use std::marker::Model;

/// What a text is cut into: its logical lines, or its first fault.
#[derive(Debug, Drop)]
pub struct Cut<'t> {
    lines: Result<Vec<Line<'t>>, Fault>,
}

impl<'t> Model for Cut<'t> {
    ghost use Rattle.std.specs.Result.{result_map_both};
    ghost use Rattle.mk_include.specs.Includes as spec;

    ghost Value = { spec.Cut };

    ghost view = { λ a. result_map_both (λ lines. lines.items) (λ fault. fault) a.lines };
}

/// Equal names. The only error is out of memory.
fn copy_names(alloc: Global, names: &[Name]) -> Result<Vec<Name>, AllocError>
    ensures { IfOk result (λ copies. copies.items ≡ names.now) }
{
    let mut copies = Vec::new(alloc);
    for name in names {
        copies.push(name.copy(alloc)?)?;
    }
    Ok(copies)
}

/// An equal fault, reported in the text that has this name.
fn copy_in(alloc: Global, fault: &Fault, name: &Name) -> Result<Fault, AllocError>
    ensures { IfOk result (λ copy. copy ≡ record fault.now { source = Source.Include name.now }) }
{
    let names = copy_names(alloc, fault.names())?;
    let source = Source::Include(name.copy(alloc)?);
    Ok(Fault::new(fault.kind(), source, fault.place(), names))
}

impl<'t> Cut<'t> {
    /// What this text is cut into. The only error is out of memory.
    pub fn of_text(alloc: Global, text: &'t [u8]) -> Result<Cut<'t>, AllocError>
        ensures { IfOk result (λ cut. cut ≡ logical_lines text.now) }
    {
        match lines(alloc, text) {
            Ok(lines) => Ok(Cut { lines: Ok(lines) }),
            Err(Halt::Fault(fault)) => Ok(Cut { lines: Err(fault) }),
            Err(Halt::Memory) => Err(AllocError),
        }
    }

    /// The lines of the text, or its fault, reported in the text of this name, at its line.
    pub fn lines(&self, alloc: Global, name: &Name) -> Result<&[Line<'t>], Halt>
        ensures { Gives (result_map_both (λ lines. lines.now) (λ halt. halt) result)
            (reported_in name.now self.now) }
    {
        match &self.lines {
            Ok(lines) => Ok(lines.as_slice()),
            Err(fault) => Err(Halt::Fault(copy_in(alloc, fault, name)?)),
        }
    }
}
