//! The faults of an expansion: they are at no place, which who expands sets.
ghost use Rattle.std.specs.Prelude.{◌≡◌, ◌∷◌, [], IfOk};
ghost use Rattle.mk_macro.specs.Expansion.{macro_fault};

use mk_name::fault::{Fault, Halt, Kind, Source};
use mk_name::name::Name;
use std::alloc::{AllocError, Global};

/// A fault without a name.
pub fn unnamed(alloc: Global, kind: Kind) -> Halt
    ensures { result ≡ Halt.Fault (macro_fault kind []) }
{
    Halt::Fault(Fault::unnamed(alloc, kind, Source::Makefile, 0))
}

/// A fault that names a macro. The only error is out of memory.
pub fn named(alloc: Global, kind: Kind, name: &[u8]) -> Result<Fault, AllocError>
    ensures { IfOk result (λ fault. fault ≡ macro_fault kind (name.now ∷ [])) }
{
    let name = Name::from_bytes(Vec::from_slice(alloc, name)?);
    Fault::naming(alloc, kind, Source::Makefile, 0, name)
}
