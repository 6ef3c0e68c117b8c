//! Names in the order in which they are found, each with its place as its number.
ghost use Rattle.std.specs.Prelude.{◌≡◌, ◌<◌, ◌∷◌, [], length, IfOk, OnErr, OnOk};
ghost use Rattle.mk_name.specs.Names.{kept, same_name, IsDistinct};
ghost use Rattle.mk_jobs.specs.Numbered.{name_at, number_of, HasFirst, Stand};

use mk_name::name::Name;
use mk_table::hasher::NameSet;
use std::alloc::{AllocError, Global};
use std::marker::Model;

/// Names in the order in which they were put, each once. A name's number is its place. It is kept once, in a table of
/// hashes.
#[derive(Debug, Drop)]
pub struct Numbering {
    names: NameSet,
}

impl Model for Numbering {
    ghost use Rattle.std.specs.Prelude.{List};
    ghost use Rattle.mk_name.specs.Names.{Name};

    ghost Value = { List Name };

    ghost view = { λ a. a.names.keys };
}

impl Numbering {
    /// The names of a set, by their places. The key of the set's hasher must be one that nobody can choose names to collide
    /// under.
    pub fn of_set(names: NameSet) -> Numbering
        ensures { result ≡ names.keys }
    {
        Numbering { names }
    }

    /// How many names there are.
    pub fn count(&self) -> usize
        ensures count { result ≡ length self.now }
        ensures distinct { IsDistinct same_name self.now }
    {
        self.names.len()
    }

    /// The name with a number.
    pub fn name(&self, number: usize) -> &Name
        requires { number < length self.now }
        ensures { result.now ≡ name_at self.now number }
    {
        &self.names.as_slice()[number]
    }

    /// The number of a name.
    pub fn number(&self, name: &Name) -> Option<usize>
        ensures { result ≡ number_of self.now name.now }
    {
        self.names.get_index_of(name)
    }

    /// The number of a name, which is put last if it is new. The only error is out of memory, and then the names
    /// are as they were.
    pub fn put(&mut self, alloc: Global, name: &Name) -> Result<usize, AllocError>
        ensures kept { IfOk result (λ number. self.new ≡ kept same_name self.old (name.now ∷ [])) }
        ensures within { IfOk result (λ number. number < length self.new) }
        ensures name { IfOk result (λ number. name_at self.new number ≡ name.now) }
        ensures same { OnErr result (self.new ≡ self.old) }
    {
        if let Some(number) = self.number(name) {
            return Ok(number);
        }
        let number = self.count();
        self.names.insert(name.copy(alloc)?)?;
        Ok(number)
    }

    /// Puts a name last, if it is new. The only error is out of memory, and then the names are as they were.
    pub(crate) fn insert(&mut self, name: Name) -> Result<(), AllocError>
        ensures kept { OnOk result (self.new ≡ kept same_name self.old (name ∷ [])) }
        ensures same { OnErr result (self.new ≡ self.old) }
    {
        self.names.insert(name)?;
        Ok(())
    }

    /// The numbers of some names, of which the new ones are put last. The only error is out of memory, and then the first
    /// few of these names have been put.
    pub fn put_all(&mut self, alloc: Global, some: &[Name]) -> Result<Vec<usize>, AllocError>
        ensures kept { IfOk result (λ numbers. self.new ≡ kept same_name self.old some.now) }
        ensures stand { IfOk result (λ numbers. Stand self.new numbers.items some.now) }
        ensures begun { OnErr result (HasFirst self.old some.now self.new) }
    {
        let mut numbers = Vec::new(alloc);
        for name in some {
            numbers.push(self.put(alloc, name)?)?;
        }
        Ok(numbers)
    }
}
