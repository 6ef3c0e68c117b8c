//! The macros of a makefile, and what a text expands to under them (POSIX.1-2024 XCU make,
//! "Macros").
ghost use Rattle.std.specs.Prelude.{◌≡◌, ◌++◌, ◌≤◌, Some, None, IfOk, IfSome, IfNone, OnOk, OnErr, length, MatchOption};
ghost use Rattle.std.specs.Option.{option_copied};
ghost use Rattle.mk_macro.specs.Macros.{defined, defined_unless_given, macros_of, no_macros};

use crate::definition::{Definition, Manner};
use std::alloc::{AllocError, Global};
use std::collections::BTreeMap;
use std::collections::btree_map::Entry;
use std::marker::Model;

/// What each macro stands for. The table is ordered, so that no choice of names makes a look-up slow.
#[derive(Debug)]
pub struct Macros {
    table: BTreeMap<Vec<u8>, Definition>,
}

// By hand, so that it is proved once (docs/GATE.md, "What costs the prover").
impl Drop for Macros {
    fn drop(self) {
        let Macros { table: _ } = self;
    }
}

impl Model for Macros {
    ghost use Rattle.std.specs.Prelude.{map};
    ghost use Rattle.mk_macro.specs.Macros.{Entries};

    ghost Value = { Entries };

    ghost view = { λ a. map (λ e. (e.0.items, e.1)) a.table.entries };
}

impl Macros {
    /// No macros.
    pub(crate) fn empty(alloc: Global) -> Macros
        ensures { macros_of result ≡ no_macros }
    {
        Macros {
            table: BTreeMap::new(alloc),
        }
    }

    /// Equal macros: each name stands for the same. The only error is out of memory.
    pub fn copy(&self) -> Result<Macros, AllocError>
        ensures { IfOk result (λ copy. copy ≡ self.now) }
    {
        Ok(Macros {
            table: self.table.clone()?,
        })
    }

    /// What the macro stands for.
    pub(crate) fn definition(&self, name: &[u8]) -> Option<&Definition>
        ensures { option_copied result ≡ macros_of self.now name.now }
    {
        self.table.get(name)
    }

    /// Defines a macro. The only error is out of memory, and then nothing is changed.
    pub(crate) fn define(
        &mut self,
        alloc: Global,
        name: &[u8],
        definition: Definition,
    ) -> Result<(), AllocError>
        ensures defined { OnOk result (macros_of self.new ≡ defined (macros_of self.old) name.now definition) }
        ensures unchanged { OnErr result (macros_of self.new ≡ macros_of self.old) }
    {
        let key = Vec::from_slice(alloc, name)?;
        self.table.insert(key, definition)?;
        Ok(())
    }

    /// Defines a macro, unless an operand gave it its value. The only error is out of memory, and then
    /// nothing is changed.
    pub(crate) fn define_unless_given(
        &mut self,
        alloc: Global,
        name: &[u8],
        definition: Definition,
    ) -> Result<(), AllocError>
        ensures defined { OnOk result (macros_of self.new
            ≡ defined_unless_given (macros_of self.old) name.now definition) }
        ensures unchanged { OnErr result (macros_of self.new ≡ macros_of self.old) }
    {
        let key = Vec::from_slice(alloc, name)?;
        match self.table.entry(key)? {
            Entry::Vacant(entry) => {
                entry.insert(definition);
            }
            Entry::Occupied(mut entry) => {
                if !entry.get().is_given() {
                    entry.insert(definition);
                }
            }
        }
        Ok(())
    }

    /// Puts a text at the end of a macro's value, if the macro is defined. The only error is out of
    /// memory, and then nothing is changed.
    pub(crate) fn extend(&mut self, name: &[u8], text: &[u8]) -> Result<(), AllocError>
        ensures extended { OnOk result (MatchOption (macros_of self.old name.now)
            (macros_of self.new ≡ macros_of self.old)
            (λ old. macros_of self.new
            ≡ defined (macros_of self.old) name.now (record old { value = old.value ++ text.now }))) }
        ensures unchanged { OnErr result (macros_of self.new ≡ macros_of self.old) }
    {
        match self.table.get_mut(name) {
            Some(definition) => definition.extend(text),
            None => Ok(()),
        }
    }
}
