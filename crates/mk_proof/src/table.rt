//! Rows of numbers in one vector.
ghost use Rattle.std.specs.Prelude.{◌≡◌, ◌<◌, ◌≤◌, ◌-◌, ◌++◌, ◌∷◌, [], List, ℕ, length, slice_index, slice_index_or, take, drop, OnErr, OnOk};

use std::alloc::{AllocError, Global};
use std::marker::Model;

/// A list of rows of numbers. It takes two vectors, however many rows there are.
#[derive(Debug, Drop)]
pub(crate) struct Table {
    numbers: Vec<u32>,
    /// Where each row ends.
    ends: Vec<usize>,
}

impl Model for Table {
    ghost use Rattle.std.specs.Prelude.{List, ℕ, length};
    ghost use Rattle.mk_proof.specs.Tables.{AreEnds, rows_from};

    ghost Value = { List (List ℕ) };

    ghost view = { λ a. rows_from 0 a.numbers.items a.ends.items };

    ghost invariant = { λ a. AreEnds 0 (length a.numbers.items) a.ends.items };
}

impl Table {
    /// The table of no rows.
    pub(crate) fn new(alloc: Global) -> Table
        ensures { result ≡ [] }
    {
        Table {
            numbers: Vec::new(alloc),
            ends: Vec::new(alloc),
        }
    }

    /// The number of rows.
    pub(crate) fn count(&self) -> usize
        ensures { result ≡ length self.now }
    {
        self.ends.len()
    }

    /// The row with this number, from 0.
    pub(crate) fn row(&self, number: usize) -> &[u32]
        requires { number < length self.now }
        ensures { result.now ≡ slice_index_or self.now number result.now }
    {
        part(
            &self.numbers,
            start_of(&self.ends, number),
            self.ends[number],
        )
    }

    /// Puts a row at the end. The only error is out of memory, and the table is then as it was.
    pub(crate) fn push(&mut self, row: &[u32]) -> Result<(), AllocError>
        ensures pushed { OnOk result (self.new ≡ self.old ++ row.now ∷ []) }
        ensures kept { OnErr result (self.new ≡ self.old) }
    {
        let start = self.numbers.len();
        self.numbers.extend_from_slice(row)?;
        match self.ends.push(self.numbers.len()) {
            Ok(()) => Ok(()),
            Err(_) => {
                self.numbers.truncate(start);
                Err(AllocError)
            }
        }
    }
}

/// Where the row with this number begins, by the places where the rows end.
fn start_of(ends: &[usize], number: usize) -> usize
    requires { number < length ends.now }
    ensures { result ≡ slice_index (0 ∷ ends.now) number }
{
    if number == 0 { 0 } else { ends[number - 1] }
}

/// The numbers from one place up to another.
fn part(numbers: &[u32], start: usize, end: usize) -> &[u32]
    requires order { start ≤ end }
    requires within { end ≤ length numbers.now }
    ensures { result.now ≡ take (end - start) (drop start numbers.now) }
{
    &numbers[start..end]
}
