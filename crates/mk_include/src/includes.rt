//! The texts that include lines may name.
ghost use Rattle.std.specs.Prelude.{◌≡◌, [], ◌∷◌, ◌++◌, map, OnOk};
ghost use Rattle.std.specs.Option.{option_copied};
ghost use Rattle.mk_lines.specs.LogicalLines.{logical_lines};
ghost use Rattle.mk_include.specs.Includes.{GivesTexts, includes_of, texts_of};

use crate::cut::Cut;
use mk_name::fault::{Halt, Source};
use mk_name::name::Name;
use mk_text::root::Root;
use mk_text::spelling::plain_path;
use std::alloc::{AllocError, Global};
use std::collections::BTreeMap;
use std::marker::Model;

/// The texts that include lines may name, each under its plain name and cut into its lines once. The table
/// is ordered, so that no choice of names makes a look-up slow.
#[derive(Debug)]
pub struct Includes<'t> {
    table: BTreeMap<Name, Cut<'t>>,
}

// By hand, so that it is proved once (docs/GATE.md, "What costs the prover").
impl Drop for Includes<'_> {
    fn drop(self) {
        let Includes { table: _ } = self;
    }
}

impl<'t> Model for Includes<'t> {
    ghost use Rattle.mk_include.specs.Includes.{Named};

    ghost Value = { Named };

    ghost view = { λ a. a.table.entries };
}

impl<'t> Includes<'t> {
    /// No texts.
    pub fn none(alloc: Global) -> Includes<'t>
        ensures { result ≡ [] }
    {
        Includes {
            table: BTreeMap::new(alloc),
        }
    }

    /// Adds a text, unless the name has one. The only error is out of memory.
    fn add(&mut self, alloc: Global, name: Name, text: &'t [u8]) -> Result<(), AllocError>
        ensures { OnOk result (texts_of self.new
            ≡ texts_of (self.old ++ (name, logical_lines text.now) ∷ [])) }
    {
        if self.table.contains_key(&name) {
            return Ok(());
        }
        let cut = Cut::of_text(alloc, text)?;
        self.table.insert(name, cut)?;
        Ok(())
    }

    /// The texts of these pairs of a path and a text, each under the path's plain name. Where several
    /// paths have the same plain name, the text of the first stands.
    ///
    /// The first path that `plain_path` refuses is `BadName` in the source `Includes`, at the number of its
    /// pair from 1, without names. A text's own faults are no error here: who names the text reports them.
    /// Out of memory may come in place of any answer.
    pub fn read(
        alloc: Global,
        pairs: &[(&[u8], &'t [u8])],
        root: &Root,
    ) -> Result<Includes<'t>, Halt>
        ensures { GivesTexts result
            (includes_of root.now (map (λ pair. (pair.0.now, pair.1.now)) pairs.now)) }
    {
        let mut includes = Includes::none(alloc);
        for (i, (path, text)) in pairs.iter().enumerate() {
            match plain_path(alloc, path, root) {
                Ok(name) => includes.add(alloc, name, text)?,
                Err(halt) => return Err(halt.at(Source::Includes, i as u64 + 1)),
            }
        }
        Ok(includes)
    }

    /// What the text of this name is cut into.
    pub fn find(&self, name: &Name) -> Option<&Cut<'t>>
        ensures { option_copied result ≡ texts_of self.now name.now }
    {
        self.table.get(name)
    }
}
