//! Lists in which each name stands once.
ghost use Rattle.std.specs.Prelude.{◌≡◌, IfOk, OnOk};
ghost use Rattle.mk_name.specs.Names.{firsts, kept, same_name};

use indexmap::IndexSet;
use mk_name::name::Name;
use mk_table::hasher::{NameHasher, NameSet};
use std::alloc::{AllocError, Global};

/// Adds the names that are not there yet, in their order.
pub(crate) fn join(alloc: Global, joined: &mut NameSet, names: &[Name]) -> Result<(), AllocError>
    ensures { OnOk result (joined.new.keys ≡ kept same_name joined.old.keys names.now) }
{
    for name in names {
        if !joined.contains(name) {
            joined.insert(name.copy(alloc)?)?;
        }
    }
    Ok(())
}

/// The names, each where it first stands.
pub(crate) fn distinct(alloc: Global, names: Vec<Name>) -> Result<Vec<Name>, AllocError>
    ensures { IfOk result (λ list. list.items ≡ firsts same_name names.items) }
{
    if names.len() < 2 {
        return Ok(names);
    }
    let mut seen = IndexSet::with_hasher(alloc, NameHasher::of_names(&names));
    for name in names {
        seen.insert(name)?;
    }
    into_names(alloc, seen)
}

/// The names of an ordered set.
pub(crate) fn into_names(alloc: Global, names: NameSet) -> Result<Vec<Name>, AllocError>
    ensures { IfOk result (λ list. list.items ≡ names.keys) }
{
    names.into_iter().collect(alloc)
}
