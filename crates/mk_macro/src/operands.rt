//! Macros that operands of the command line define (POSIX.1-2024 XCU make, "Macros", and the
//! profile).
ghost use Rattle.std.specs.Prelude.{◌≡◌, ◌+◌, map, OnErr, OnOk};
ghost use Rattle.std.specs.List.{position};
ghost use Rattle.mk_macro.specs.Answers.{GivesMacros};
ghost use Rattle.mk_macro.specs.Macros.{macros_of};
ghost use Rattle.mk_macro.specs.Operands.{is_bad, operand_fault, operand_macros, with_operand};

use crate::definition::{Definition, Manner};
use crate::item::split_at_byte;
use crate::macros::Macros;
use mk_name::fault::{Fault, Halt, Kind, Source};
use mk_text::lexical::is_macro_name;
use std::alloc::{AllocError, Global};

/// Whether the operand defines what is no macro's name.
fn is_bad(operand: &[u8]) -> bool
    ensures { result ≡ is_bad operand.now }
{
    match split_at_byte(operand, b'=') {
        Some((name, _)) => !is_macro_name(name),
        None => false,
    }
}

/// The place of the first bad operand, from 0.
fn first_bad(operands: &[&[u8]]) -> Option<usize>
    ensures { result ≡ position (λ operand. is_bad operand.now) operands.now }
{
    operands.iter().position(|operand| is_bad(operand))
}

/// A fault of the operand at this place.
fn bad_operand(alloc: Global, place: u64) -> Halt
    ensures { result ≡ Halt.Fault (operand_fault place) }
{
    let kind = Kind::BadAssignment;
    Halt::Fault(Fault::unnamed(alloc, kind, Source::Settings, place))
}

impl Macros {
    /// Adds what an operand defines, if it does. The only error is out of memory.
    fn define_operand(&mut self, alloc: Global, operand: &[u8]) -> Result<(), AllocError>
        ensures { OnOk result (macros_of self.new ≡ with_operand (macros_of self.old) operand.now) }
    {
        let Some((name, value)) = split_at_byte(operand, b'=') else {
            return Ok(());
        };
        let value = Vec::from_slice(alloc, value)?;
        self.define(alloc, name, Definition::new(value, Manner::Given))
    }

    /// The macros that the operands of the command line define. An operand with a `=` defines what
    /// stands before the first one as all that stands behind it, byte by byte; any other is passed
    /// over. The last definition of a name counts, and no line changes it.
    ///
    /// The first operand that defines what is no macro's name is `BadAssignment` in the settings, at
    /// the operand's place from 1, without names. Out of memory may come in place of any answer.
    pub fn new(alloc: Global, operands: &[&[u8]]) -> Result<Macros, Halt>
        ensures { GivesMacros result (operand_macros (map (λ operand. operand.now) operands.now)) }
    {
        if let Some(place) = first_bad(operands) {
            return Err(bad_operand(alloc, place as u64 + 1));
        }
        let mut macros = Macros::empty(alloc);
        for operand in operands {
            macros.define_operand(alloc, operand)?;
        }
        Ok(macros)
    }
}
