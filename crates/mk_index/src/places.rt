//! All paths of some rows in order, and the numbers that they get by it.
ghost use Rattle.std.specs.Prelude.{◌≡◌, ◌<◌, ◌++◌, All, Contains, IfOk, List, length, map, slice_index};
ghost use Rattle.std.specs.List.{flat_map};
ghost use Rattle.std.specs.List.Sorted.{IsStrictlySortedBy};
ghost use Rattle.mk_index.specs.Gather.{AreSorted};
ghost use Rattle.mk_path.specs.Paths.{path_cmp, path_at};
ghost use Rattle.mk_index.specs.Places.{AreNumbers, ArePlaces, number_limit};

use crate::gather::{add_numbers, gather, unite};
use crate::table::Table;
use mk_path::path::Path;
use std::alloc::{AllocError, Global};

/// The paths that nodes read and write in order, each once, and for each node the numbers of those that it reads, and of
/// those that it writes.
#[derive(Debug, Drop)]
pub struct Numbered<'a> {
    pub paths: Vec<&'a Path>,
    pub reads: Table,
    pub writes: Table,
}

/// The paths of all rows, which rise, and their numbers. The only error is out of memory, also where there are
/// more paths than numbers of 32 bits.
pub fn number_rows<'a>(
    alloc: Global,
    reads: &'a [Vec<Path>],
    writes: &'a [Vec<Path>],
) -> Result<Numbered<'a>, AllocError>
    requires reads { AreSorted reads.now }
    requires writes { AreSorted writes.now }
    ensures rise { IfOk result (λ numbered. IsStrictlySortedBy path_cmp (map (λ path. path.now) numbered.paths.items)) }
    ensures few { IfOk result (λ numbered. length numbered.paths.items < number_limit) }
    ensures reads { IfOk result (λ numbered. AreNumbers (map (λ path. path.now) numbered.paths.items) numbered.reads reads.now) }
    ensures writes { IfOk result (λ numbered. AreNumbers (map (λ path. path.now) numbered.paths.items) numbered.writes writes.now) }
    ensures only { IfOk result (λ numbered. (p : Path) → Contains (map (λ path. path.now) numbered.paths.items) p
        → Contains (flat_map (λ row. row.items) reads.now ++ flat_map (λ row. row.items) writes.now) p) }
{
    let read = gather(alloc, reads)?;
    let written = gather(alloc, writes)?;
    let union = unite(alloc, &read.paths, &written.paths)?;
    let reads = table_of(alloc, reads, &read.numbers, &union.firsts)?;
    let writes = table_of(alloc, writes, &written.numbers, &union.seconds)?;
    Ok(Numbered {
        paths: union.paths,
        reads,
        writes,
    })
}

/// The number of a path: its place among those in order, of which it is one.
pub fn number(paths: &[&Path], path: &Path) -> u32
    requires rise { IsStrictlySortedBy path_cmp (map (λ path. path.now) paths.now) }
    requires few { length paths.now < number_limit }
    requires there { Contains (map (λ path. path.now) paths.now) path.now }
    ensures within { result < length paths.now }
    ensures is { path_at (map (λ path. path.now) paths.now) result ≡ path.now }
{
    match paths.binary_search(&path) {
        Ok(place) => place as u32,
        Err(_) => 0,
    }
}

/// What stands at the places that are the numbers of the paths of all rows, row by row.
fn table_of(
    alloc: Global,
    rows: &[Vec<Path>],
    numbers: &[u32],
    places: &[u32],
) -> Result<Table, AllocError>
    requires within { All (λ n. n < length places.now) numbers.now }
    requires all { length numbers.now ≡ length (flat_map (λ row. row.items) rows.now) }
    ensures { IfOk result (λ table. (paths : List Path)
        → ArePlaces paths (map (λ n. slice_index places.now n) numbers.now) (flat_map (λ row. row.items) rows.now)
        → AreNumbers paths table rows.now) }
{
    let mut all = Vec::with_capacity(alloc, numbers.len())?;
    add_numbers(&mut all, numbers, places)?;
    cut(alloc, rows, &all)
}

/// The numbers of the paths of all rows, row by row.
fn cut(alloc: Global, rows: &[Vec<Path>], numbers: &[u32]) -> Result<Table, AllocError>
    requires { length numbers.now ≡ length (flat_map (λ row. row.items) rows.now) }
    ensures { IfOk result (λ table. (paths : List Path)
        → ArePlaces paths numbers.now (flat_map (λ row. row.items) rows.now) → AreNumbers paths table rows.now) }
{
    let mut table = Table::new(alloc);
    let mut rest = numbers;
    for row in rows {
        let (own, behind) = rest.split_at(row.len());
        table.push_row(own)?;
        rest = behind;
    }
    Ok(table)
}
