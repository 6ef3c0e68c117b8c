//! What several tests are made of: names, a root, and what macros stand for.
use mk_macro::macros::Macros;
use mk_name::name::Name;
use mk_text::root::Root;
use std::alloc::{AllocError, Global};

/// The name of these bytes.
pub(crate) fn name_of(alloc: Global, text: &[u8]) -> Result<Name, AllocError> {
    Ok(Name::from_bytes(Vec::from_slice(alloc, text)?))
}

/// Whether something was made.
pub(crate) fn is_good<T: Drop, E: Drop>(made: Result<T, E>) -> bool {
    match made {
        Ok(_) => true,
        Err(_) => false,
    }
}

/// Whether something was made, and this holds of it.
pub(crate) fn holds_of<T: Drop, E: Drop, F: FnOnce(Global, &T) -> bool>(
    alloc: Global,
    made: Result<T, E>,
    holds: F,
) -> bool
    requires { F.IsAlwaysCallable holds }
{
    match made {
        Ok(value) => holds(alloc, &value),
        Err(_) => false,
    }
}

/// Whether this holds of the root `/w`.
pub(crate) fn of_root<F: FnOnce(Global, &Root) -> bool>(alloc: Global, holds: F) -> bool
    requires { F.IsAlwaysCallable holds }
{
    holds_of(alloc, Root::read(alloc, b"/w"), holds)
}

/// Whether a text expands to this.
pub(crate) fn expands(alloc: Global, macros: &Macros, text: &[u8], want: &[u8]) -> bool {
    match macros.expand(alloc, text) {
        Ok(expanded) => expanded.as_slice() == want,
        Err(_) => false,
    }
}
