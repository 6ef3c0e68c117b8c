//! Tables of places in the list of suffixes, by names.
ghost use Rattle.std.specs.Prelude.{◌≡◌, ◌&&◌, ◌||◌, ℕ, List, nat_eq, OnOk};
ghost use Rattle.mk_name.specs.Names.{Name, same_name};
ghost use Rattle.mk_graph.specs.Places.{is_key, stands_beside};

use mk_name::name::Name;
use std::alloc::{AllocError, Global};
use std::collections::{BTreeMap, BTreeSet};

/// Sets of places by names.
pub(crate) type Table = BTreeMap<Name, BTreeSet<usize>>;

/// Puts a place beside a name.
pub(crate) fn put_beside(
    alloc: Global,
    table: &mut Table,
    name: Name,
    place: usize,
) -> Result<(), AllocError>
    ensures { OnOk result ((n : List ℕ) (p : ℕ) → stands_beside table.new n p
        ≡ (stands_beside table.old n p || (same_name name n && nat_eq place p))) }
{
    let mut places = match table.remove(&name) {
        Some(places) => places,
        None => BTreeSet::new(alloc),
    };
    places.insert(place)?;
    table.insert(name, places)?;
    Ok(())
}

/// Puts a place beside a name, if the table has the name.
pub(crate) fn put_known(table: &mut Table, name: Name, place: usize) -> Result<(), AllocError>
    ensures keys { OnOk result ((n : List ℕ) → is_key table.new n ≡ is_key table.old n) }
    ensures places { OnOk result ((n : List ℕ) (p : ℕ) → stands_beside table.new n p
        ≡ (stands_beside table.old n p || (same_name name n && is_key table.old n && nat_eq place p))) }
{
    let Some(mut places) = table.remove(&name) else {
        return Ok(());
    };
    places.insert(place)?;
    table.insert(name, places)?;
    Ok(())
}
