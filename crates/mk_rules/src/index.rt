//! An index from each target to the places of its rules.
ghost use Rattle.std.specs.Prelude.{◌≡◌, ◌≢◌, ◌-◌, [], ◌∷◌, ◌++◌, length, map, slice_get, Some, OnOk};
ghost use Rattle.mk_rules.specs.Index.{NotesEntry, NotesTarget};

use mk_name::name::Name;
use mk_table::hasher::NameSet;
use std::alloc::{AllocError, Global};

/// Puts a place at the end of a row, unless it stands there.
fn add_place(row: &mut Vec<usize>, place: usize) -> Result<(), AllocError>
    ensures there { OnOk result (slice_get row.old.items (length row.old.items - 1) ≡ Some place
        → row.new.items ≡ row.old.items) }
    ensures added { OnOk result (slice_get row.old.items (length row.old.items - 1) ≢ Some place
        → row.new.items ≡ row.old.items ++ place ∷ []) }
{
    if row.last() != Some(&place) {
        row.push(place)?;
    }
    Ok(())
}

/// Notes that the entry at a place, the last so far, names a target.
fn note_target(
    alloc: Global,
    targets: &mut NameSet,
    places: &mut Vec<Vec<usize>>,
    name: &Name,
    place: usize,
) -> Result<(), AllocError>
    requires { length places.old.items ≡ length targets.old.keys }
    ensures long { OnOk result (length places.new.items ≡ length targets.new.keys) }
    ensures noted { OnOk result (NotesTarget name.now place
        targets.old.keys (map (λ row. row.items) places.old.items)
        targets.new.keys (map (λ row. row.items) places.new.items)) }
{
    match targets.get_index_of(name) {
        Some(number) => add_place(&mut places[number], place)?,
        None => {
            targets.insert(name.copy(alloc)?)?;
            places.push(vec![in alloc; place]?)?;
        }
    }
    Ok(())
}

/// Notes that the entry at a place, the last so far, names these targets.
pub(crate) fn note_entry(
    alloc: Global,
    targets: &mut NameSet,
    places: &mut Vec<Vec<usize>>,
    names: &[Name],
    place: usize,
) -> Result<(), AllocError>
    requires { length places.old.items ≡ length targets.old.keys }
    ensures long { OnOk result (length places.new.items ≡ length targets.new.keys) }
    ensures noted { OnOk result (NotesEntry names.now place
        targets.old.keys (map (λ row. row.items) places.old.items)
        targets.new.keys (map (λ row. row.items) places.new.items)) }
{
    for name in names {
        note_target(alloc, targets, places, name, place)?;
    }
    Ok(())
}
