//! The paths of rows that rise, united into one row, each with its number there.
ghost use Rattle.std.specs.Prelude.{ℕ, ◌≡◌, ◌<◌, ◌≤◌, ◌+◌, ◌++◌, ◌∷◌, [], All, IfNone, IfOk, IfSome, List, OnOk, length, map, slice_index};
ghost use Rattle.std.specs.List.{flat_map};
ghost use Rattle.std.specs.List.Sorted.{IsStrictlySortedBy};
ghost use Rattle.mk_index.specs.Gather.{AreGathered, AreSorted, IsStep, IsUnion, IsUnited, upwards};
ghost use Rattle.mk_path.specs.Paths.{path_cmp};
ghost use Rattle.mk_index.specs.Places.{number_limit};

use mk_path::path::Path;
use std::alloc::{AllocError, Global};
use std::cmp::Ordering;

/// How many paths can have a number.
const NUMBER_LIMIT: usize = 4294967295;

/// Two rows of paths as one: the paths in order, each once, and the places there of those that each row gave.
#[derive(Debug, Drop)]
pub struct Union<'a> {
    pub paths: Vec<&'a Path>,
    pub firsts: Vec<u32>,
    pub seconds: Vec<u32>,
}

/// The paths of some rows in order, each once, and the places there of the paths of all rows, row behind row.
#[derive(Debug, Drop)]
pub struct Gathered<'a> {
    pub paths: Vec<&'a Path>,
    pub numbers: Vec<u32>,
}

/// The number of the path that comes behind these, or out of memory where numbers of 32 bits end.
fn next_number(paths: &[&Path]) -> Result<u32, AllocError>
    ensures is { IfOk result (λ number. number ≡ length paths.now) }
    ensures few { IfOk result (λ number. number + 1 < number_limit) }
{
    let number = paths.len();
    if number >= NUMBER_LIMIT - 1 {
        return Err(AllocError);
    }
    Ok(number as u32)
}

/// Which of two rows has the next path, where so many paths of each are taken: Less for the first row, Greater for the second,
/// Equal where it is one path; None where both are taken whole.
fn next_step(first: &[&Path], i: usize, second: &[&Path], j: usize) -> Option<Ordering>
    ensures some { IfSome result (IsStep (map (λ path. path.now) first.now) (map (λ path. path.now) second.now) i j) }
    ensures none { IfNone result ((length first.now ≤ i) × (length second.now ≤ j)) }
{
    if i < first.len() {
        if j < second.len() {
            Some(first[i].cmp(second[j]))
        } else {
            Some(Ordering::Less)
        }
    } else if j < second.len() {
        Some(Ordering::Greater)
    } else {
        None
    }
}

/// The end of a run in a row: its paths, from a place on, all stand before the path at a place of another row, if one stands
/// there, as the first of them must. It need not be the longest such run: it is found by leaps, each twice as long as the one
/// before, up to the first that goes too far.
fn run_end(paths: &[&Path], from: usize, others: &[&Path], at: usize) -> usize
    requires rise { IsStrictlySortedBy path_cmp (map (λ path. path.now) paths.now) }
    requires step { IsStep (map (λ path. path.now) paths.now) (map (λ path. path.now) others.now) from at Ordering.Less }
    ensures more { from < result }
    ensures within { result ≤ length paths.now }
    ensures before { (k : ℕ) → k < result → IsStep (map (λ path. path.now) paths.now) (map (λ path. path.now) others.now) k at Ordering.Less }
{
    if at >= others.len() {
        return paths.len();
    }
    let stop = others[at];
    let mut end = from + 1;
    let mut leap = 1;
    while leap <= paths.len() - end && paths[end + leap - 1].cmp(stop).is_lt() {
        end += leap;
        leap = leap.saturating_mul(2);
    }
    end
}

/// Puts a run of paths behind others, and their numbers behind those of their row.
fn put_run<'a>(
    paths: &mut Vec<&'a Path>,
    numbers: &mut Vec<u32>,
    run: &[&'a Path],
) -> Result<(), AllocError>
    requires few { length paths.old.items < number_limit }
    ensures paths { OnOk result (map (λ path. path.now) paths.new.items ≡ map (λ path. path.now) paths.old.items ++ map (λ path. path.now) run.now) }
    ensures few { OnOk result (length paths.new.items < number_limit) }
    ensures numbers { OnOk result (numbers.new.items ≡ numbers.old.items ++ upwards (length paths.old.items) (length run.now)) }
{
    for path in run {
        numbers.push(next_number(paths)?)?;
        paths.push(*path)?;
    }
    Ok(())
}

impl<'a> Union<'a> {
    /// Puts a path of both rows behind the others.
    fn put_both(&mut self, path: &'a Path) -> Result<(), AllocError>
        ensures paths { OnOk result (map (λ path. path.now) self.new.paths.items ≡ map (λ path. path.now) self.old.paths.items ++ path.now ∷ []) }
        ensures few { OnOk result (length self.new.paths.items < number_limit) }
        ensures firsts { OnOk result (self.new.firsts.items ≡ self.old.firsts.items ++ length self.old.paths.items ∷ []) }
        ensures seconds { OnOk result (self.new.seconds.items ≡ self.old.seconds.items ++ length self.old.paths.items ∷ []) }
    {
        let number = next_number(&self.paths)?;
        self.firsts.push(number)?;
        self.seconds.push(number)?;
        self.paths.push(path)?;
        Ok(())
    }

    /// Puts the next path behind the others, of the row that the step names, and with it a run of that row, if it
    /// has the path alone.
    fn put(
        &mut self,
        step: Ordering,
        first: &[&'a Path],
        second: &[&'a Path],
    ) -> Result<(), AllocError>
        requires first { IsStrictlySortedBy path_cmp (map (λ path. path.now) first.now) }
        requires second { IsStrictlySortedBy path_cmp (map (λ path. path.now) second.now) }
        requires united { IsUnited (map (λ path. path.now) first.now) (map (λ path. path.now) second.now)
            (map (λ path. path.now) self.old.paths.items) self.old.firsts.items self.old.seconds.items }
        requires step { IsStep (map (λ path. path.now) first.now) (map (λ path. path.now) second.now)
            (length self.old.firsts.items) (length self.old.seconds.items) step }
        ensures united { OnOk result (IsUnited (map (λ path. path.now) first.now) (map (λ path. path.now) second.now)
            (map (λ path. path.now) self.new.paths.items) self.new.firsts.items self.new.seconds.items) }
        ensures more { OnOk result (length self.old.firsts.items + length self.old.seconds.items
            < length self.new.firsts.items + length self.new.seconds.items) }
    {
        let i = self.firsts.len();
        let j = self.seconds.len();
        match step {
            Ordering::Less => {
                let end = run_end(first, i, second, j);
                put_run(&mut self.paths, &mut self.firsts, &first[i..end])
            }
            Ordering::Greater => {
                let end = run_end(second, j, first, i);
                put_run(&mut self.paths, &mut self.seconds, &second[j..end])
            }
            Ordering::Equal => {
                let path = first[i];
                self.put_both(path)
            }
        }
    }

    /// Puts all that is left of both rows behind the others.
    fn put_all(&mut self, first: &[&'a Path], second: &[&'a Path]) -> Result<(), AllocError>
        requires first { IsStrictlySortedBy path_cmp (map (λ path. path.now) first.now) }
        requires second { IsStrictlySortedBy path_cmp (map (λ path. path.now) second.now) }
        requires united { IsUnited (map (λ path. path.now) first.now) (map (λ path. path.now) second.now)
            (map (λ path. path.now) self.old.paths.items) self.old.firsts.items self.old.seconds.items }
        ensures { OnOk result (IsUnion (map (λ path. path.now) first.now) (map (λ path. path.now) second.now)
            (map (λ path. path.now) self.new.paths.items) self.new.firsts.items self.new.seconds.items) }
    {
        while let Some(step) = next_step(first, self.firsts.len(), second, self.seconds.len()) {
            self.put(step, first, second)?;
        }
        Ok(())
    }
}

/// Two rows of paths, which rise, as one. The only error is out of memory, also where there are more paths
/// than numbers of 32 bits.
pub fn unite<'a>(
    alloc: Global,
    first: &[&'a Path],
    second: &[&'a Path],
) -> Result<Union<'a>, AllocError>
    requires first { IsStrictlySortedBy path_cmp (map (λ path. path.now) first.now) }
    requires second { IsStrictlySortedBy path_cmp (map (λ path. path.now) second.now) }
    ensures { IfOk result (λ union. IsUnion (map (λ path. path.now) first.now) (map (λ path. path.now) second.now)
        (map (λ path. path.now) union.paths.items) union.firsts.items union.seconds.items) }
{
    let most = first.len().saturating_add(second.len());
    let mut union = Union {
        paths: Vec::with_capacity(alloc, most)?,
        firsts: Vec::with_capacity(alloc, first.len())?,
        seconds: Vec::with_capacity(alloc, second.len())?,
    };
    union.put_all(first, second)?;
    Ok(union)
}

/// References to the paths of a row.
fn lent<'a>(alloc: Global, row: &'a [Path]) -> Result<Vec<&'a Path>, AllocError>
    ensures { IfOk result (λ paths. map (λ path. path.now) paths.items ≡ row.now) }
{
    let mut paths = Vec::with_capacity(alloc, row.len())?;
    for path in row {
        paths.push(path)?;
    }
    Ok(paths)
}

/// The paths of one row, which rise, with their numbers.
fn alone<'a>(alloc: Global, row: &'a [Path]) -> Result<Gathered<'a>, AllocError>
    requires { IsStrictlySortedBy path_cmp row.now }
    ensures { IfOk result (λ gathered. AreGathered row.now (map (λ path. path.now) gathered.paths.items) gathered.numbers.items) }
{
    let paths = lent(alloc, row)?;
    let union = unite(alloc, &paths, &[])?;
    Ok(Gathered {
        paths: union.paths,
        numbers: union.firsts,
    })
}

/// Adds for each of some numbers what stands at its place.
pub fn add_numbers(numbers: &mut Vec<u32>, theirs: &[u32], places: &[u32]) -> Result<(), AllocError>
    requires { All (λ n. n < length places.now) theirs.now }
    ensures { OnOk result (numbers.new.items ≡ numbers.old.items ++ map (λ n. slice_index places.now n) theirs.now) }
{
    for &n in theirs {
        numbers.push(places[n as usize])?;
    }
    Ok(())
}

/// The paths of some rows and of others, united.
fn join<'a>(
    alloc: Global,
    first: &Gathered<'a>,
    second: &Gathered<'a>,
) -> Result<Gathered<'a>, AllocError>
    requires first { IsStrictlySortedBy path_cmp (map (λ path. path.now) first.now.paths.items) }
    requires second { IsStrictlySortedBy path_cmp (map (λ path. path.now) second.now.paths.items) }
    requires first_within { All (λ n. n < length first.now.paths.items) first.now.numbers.items }
    requires second_within { All (λ n. n < length second.now.paths.items) second.now.numbers.items }
    ensures { IfOk result (λ gathered. (rows others : List Path)
        → AreGathered rows (map (λ path. path.now) first.now.paths.items) first.now.numbers.items
        → AreGathered others (map (λ path. path.now) second.now.paths.items) second.now.numbers.items
        → AreGathered (rows ++ others) (map (λ path. path.now) gathered.paths.items) gathered.numbers.items) }
{
    let union = unite(alloc, &first.paths, &second.paths)?;
    let all = first.numbers.len().saturating_add(second.numbers.len());
    let mut numbers = Vec::with_capacity(alloc, all)?;
    add_numbers(&mut numbers, &first.numbers, &union.firsts)?;
    add_numbers(&mut numbers, &second.numbers, &union.seconds)?;
    Ok(Gathered {
        paths: union.paths,
        numbers,
    })
}

/// The paths of all rows, of which each rises. Rows are united two by two, and then what comes of them. The only error is out of
/// memory, also where there are more paths than numbers of 32 bits.
pub fn gather<'a>(alloc: Global, rows: &'a [Vec<Path>]) -> Result<Gathered<'a>, AllocError>
    requires { AreSorted rows.now }
    ensures { IfOk result (λ gathered. AreGathered (flat_map (λ row. row.items) rows.now)
        (map (λ path. path.now) gathered.paths.items) gathered.numbers.items) }
{
    match rows {
        [] => Ok(Gathered {
            paths: Vec::new(alloc),
            numbers: Vec::new(alloc),
        }),
        [row] => alone(alloc, row.as_slice()),
        _ => {
            let half = rows.len() / 2;
            let first = gather(alloc, &rows[..half])?;
            let second = gather(alloc, &rows[half..])?;
            join(alloc, &first, &second)
        }
    }
}
