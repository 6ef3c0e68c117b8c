//! Labels in the order in which they are read, each with its place as its number.
ghost use Rattle.std.specs.Prelude.{◌≡◌, ◌∷◌, [], OnErr, OnOk};
ghost use Rattle.mk_name.specs.Names.{kept, same_name};
ghost use Rattle.mk_jobs.specs.Numbered.{number_of};

use mk_name::name::Name;
use std::alloc::{AllocError, Global};
use std::collections::BTreeMap;
use std::marker::Model;

/// Names in the order in which they were put, each once. A name's number is its place. The index is an ordered map: while a
/// text is read nothing is known of the names to come, so no key of hashes could be made of all of them.
#[derive(Debug, Drop)]
pub struct Labels {
    names: Vec<Name>,
    numbers: BTreeMap<Name, usize>,
}

impl Model for Labels {
    ghost use Rattle.std.specs.Prelude.{List};
    ghost use Rattle.mk_name.specs.Names.{Name};
    ghost use Rattle.mk_task.specs.Labels.{AreNumbered};

    ghost Value = { List Name };

    ghost view = { λ a. a.names.items };

    ghost invariant = { λ a. AreNumbered a.names.items a.numbers };
}

impl Labels {
    /// No names.
    pub fn new(alloc: Global) -> Labels
        ensures { result ≡ [] }
    {
        Labels {
            names: Vec::new(alloc),
            numbers: BTreeMap::new(alloc),
        }
    }

    /// The number of a name.
    pub fn number(&self, name: &Name) -> Option<usize>
        ensures { result ≡ number_of self.now name.now }
    {
        self.numbers.get(name).copied()
    }

    /// Puts a name last, if it is new. The only error is out of memory, and then the names are as they were.
    pub fn put(&mut self, alloc: Global, name: &Name) -> Result<(), AllocError>
        ensures kept { OnOk result (self.new ≡ kept same_name self.old (name.now ∷ [])) }
        ensures same { OnErr result (self.new ≡ self.old) }
    {
        if let Some(_number) = self.number(name) {
            return Ok(());
        }
        let number = self.names.len();
        let own = name.copy(alloc)?;
        let key = name.copy(alloc)?;
        self.names.reserve(1)?;
        self.numbers.insert(key, number)?;
        self.names.push(own)?;
        Ok(())
    }
}
