//! The macro that was looked up last: a text often refers to one macro many times in a row.
ghost use Rattle.std.specs.Prelude.{◌≡◌};
ghost use Rattle.std.specs.Option.{option_copied};
ghost use Rattle.mk_macro.specs.Macros.{macros_of};
ghost use Rattle.mk_macro.specs.Recent.{IsRecent};

use crate::definition::Definition;
use crate::macros::Macros;

/// A name that was looked up, and what its macro stands for, where it is defined.
#[derive(Clone, Copy)]
pub(crate) struct Recent<'a> {
    pub(crate) name: &'a [u8],
    pub(crate) definition: Option<&'a Definition>,
}

impl Macros {
    /// What the macro of this name stands for, which was looked up last, or is looked up now.
    pub(crate) fn recalled<'a>(&'a self, last: Option<Recent<'a>>, name: &'a [u8]) -> Recent<'a>
        requires { IsRecent (macros_of self.now) last }
        ensures name { result.name.now ≡ name.now }
        ensures definition { option_copied result.definition ≡ macros_of self.now result.name.now }
    {
        match last {
            Some(recent) if recent.name == name => recent,
            _ => Recent {
                name,
                definition: self.definition(name),
            },
        }
    }
}
