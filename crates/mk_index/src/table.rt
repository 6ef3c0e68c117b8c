//! Rows of numbers in one vector.
ghost use Rattle.std.specs.Prelude.{◌≡◌, ◌<◌, ◌≤◌, ◌-◌, ◌++◌, ◌∷◌, [], OnErr, OnOk, drop, length, take};
ghost use Rattle.mk_index.specs.Table.{row_of, start_from};

use std::alloc::{AllocError, Global};
use std::marker::Model;

/// Rows of numbers. All numbers stand in one vector, so a row takes no more than its numbers and one place.
#[derive(Debug, Drop)]
pub struct Table {
    numbers: Vec<u32>,
    ends: Vec<usize>,
}

impl Model for Table {
    ghost use Rattle.std.specs.Prelude.{List, ℕ, length};
    ghost use Rattle.mk_index.specs.Table.{AreEnds, rows_from};

    ghost Value = { List (List ℕ) };

    ghost view = { λ a. rows_from 0 a.ends.items a.numbers.items };

    ghost invariant = { λ a. AreEnds 0 a.ends.items (length a.numbers.items) };
}

impl Table {
    /// No rows.
    pub fn new(alloc: Global) -> Table
        ensures { result ≡ [] }
    {
        Table {
            numbers: Vec::new(alloc),
            ends: Vec::new(alloc),
        }
    }

    /// Puts a row behind the others. The only error is out of memory, and then the rows are as they were.
    pub fn push_row(&mut self, row: &[u32]) -> Result<(), AllocError>
        ensures put { OnOk result (self.new ≡ self.old ++ row.now ∷ []) }
        ensures kept { OnErr result (self.new ≡ self.old) }
    {
        self.ends.reserve(1)?;
        self.numbers.extend_from_slice(row)?;
        let end = self.numbers.len();
        self.ends.push(end)?;
        Ok(())
    }

    /// How many rows there are.
    pub fn count(&self) -> usize
        ensures { result ≡ length self.now }
    {
        self.ends.len()
    }

    /// The row at a place, from 0 on, which must be below the count of rows.
    pub fn row(&self, i: usize) -> &[u32]
        requires { i < length self.now }
        ensures { result.now ≡ row_of self.now i }
    {
        let ends = self.ends.as_slice();
        let count = ends.len();
        prove!(i < count);
        let start = start_of(ends, i);
        let end = start_of(ends, i + 1);
        part(self.numbers.as_slice(), start, end)
    }
}

/// Where the row at a place begins, or where the last one ends.
fn start_of(ends: &[usize], i: usize) -> usize
    requires { i ≤ length ends.now }
    ensures { result ≡ start_from 0 ends.now i }
{
    if i == 0 { 0 } else { ends[i - 1] }
}

/// The numbers from one place up to another.
fn part(numbers: &[u32], start: usize, end: usize) -> &[u32]
    requires order { start ≤ end }
    requires within { end ≤ length numbers.now }
    ensures { result.now ≡ take (end - start) (drop start numbers.now) }
{
    &numbers[start..end]
}
