//! Macros whose values are being expanded.
ghost use Rattle.std.specs.Prelude.{◌≡◌, ◌<◌, None, reverse, IfErr, OnOk};
ghost use Rattle.std.specs.List.{list_any};
ghost use Rattle.mk_name.specs.Names.{same_name};
ghost use Rattle.mk_macro.specs.Busy.{busy_names};
ghost use Rattle.mk_macro.specs.Expansion.{is_internal, is_internal_sign, reference_limit, refusal};
ghost use Rattle.mk_macro.specs.Limits.{IsRefusal};

use crate::fault::{named, unnamed};
use mk_name::fault::{Halt, Kind};
use std::alloc::Global;

/// One expansion may have so many references (profile).
pub const REFERENCE_LIMIT: usize = 10_000;

/// A macro whose value is being expanded, and what is left of the text behind the reference to it.
#[derive(Debug, Drop)]
pub struct Open<'a> {
    pub name: &'a [u8],
    pub rest: &'a [u8],
}

/// Whether the byte is the name of an internal macro.
fn is_internal_sign(byte: u8) -> bool
    ensures { result ≡ is_internal_sign byte }
{
    matches!(byte, b'@' | b'<' | b'*' | b'?' | b'%' | b'^' | b'+')
}

/// Whether the name is that of an internal macro ("Macros").
fn is_internal(name: &[u8]) -> bool
    ensures { result ≡ is_internal name.now }
{
    match name {
        [sign] => is_internal_sign(*sign),
        [sign, part] => is_internal_sign(*sign) && (*part == b'D' || *part == b'F'),
        _ => false,
    }
}

/// Whether the macro's value is being expanded.
fn is_busy(opens: &[Open], name: &[u8]) -> bool
    ensures { result ≡ list_any (λ open_. same_name open_.name.now name.now) (reverse opens.now) }
{
    opens.iter().rev().any(|open| open.name == name)
}

/// Refuses a reference to this macro behind so many references: to an internal one, to more than one
/// expansion may have, and to one whose value is being expanded.
pub fn refuse(alloc: Global, opens: &[Open], count: usize, name: &[u8]) -> Result<(), Halt>
    ensures allowed { OnOk result (refusal (busy_names opens.now) count name.now ≡ None) }
    ensures below { OnOk result (count < reference_limit) }
    ensures refused { IfErr result (λ halt.
        IsRefusal halt (refusal (busy_names opens.now) count name.now)) }
{
    if is_internal(name) {
        return Err(Halt::Fault(named(alloc, Kind::InternalMacro, name)?));
    }
    if count >= REFERENCE_LIMIT {
        return Err(unnamed(alloc, Kind::ExpansionTooLarge));
    }
    if is_busy(opens, name) {
        return Err(Halt::Fault(named(alloc, Kind::MacroLoop, name)?));
    }
    Ok(())
}
