//! What is kept of the macros before an include line.
ghost use Rattle.std.specs.Prelude.{◌≡◌, IfOk, IfNone, IfSome};
ghost use Rattle.mk_macro.specs.Macros as specs;
ghost use Rattle.mk_macro.specs.Macros.{macros_of};
ghost use Rattle.mk_rules.specs.Before.{IsBefore};

use mk_macro::macros::Macros;
use std::alloc::AllocError;
use std::mem;

/// The macros before an include line whose words are being read.
#[derive(Drop)]
pub(crate) enum Before {
    /// No text of the line was read yet: they are the macros now. So many include lines began before it.
    Same(usize),
    /// They are these.
    Kept(Macros),
    /// They are not kept. So many include lines began before the line.
    Gone(usize),
}

impl Before {
    /// The macros before a line that begins now, behind so many include lines. The only error is out of
    /// memory.
    pub(crate) fn new(is_kept: bool, begun: usize, macros: &Macros) -> Result<Before, AllocError>
        ensures { IfOk result (λ before. IsBefore before macros.now (macros_of macros.now)) }
    {
        if is_kept {
            Ok(Before::Kept(macros.copy()?))
        } else {
            Ok(Before::Same(begun))
        }
    }

    /// The same behind a text of the line.
    pub(crate) fn pass(&mut self)
        ensures { (now later : specs.Entries) (first : specs.Macros) → IsBefore self.old now first
            → IsBefore self.new later first }
    {
        let Before::Same(begun) = self else {
            return;
        };
        let begun = *begun;
        *self = Before::Gone(begun);
    }

    /// Makes the macros those before the line; or leaves them, where those are not kept, and gives how many
    /// include lines began before it.
    pub(crate) fn take_back(&mut self, macros: &mut Macros) -> Option<usize>
        ensures taken_back { IfNone result ((first : specs.Macros) → IsBefore self.old macros.old first
            → macros_of macros.new ≡ first) }
        ensures left { IfSome result (λ begun. macros_of macros.new ≡ macros_of macros.old) }
    {
        match mem::replace(self, Before::Gone(0)) {
            Before::Same(_) => None,
            Before::Kept(first) => {
                *macros = first;
                None
            }
            Before::Gone(begun) => Some(begun),
        }
    }
}
