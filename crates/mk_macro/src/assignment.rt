//! What an assignment does (POSIX.1-2024 XCU make, "Macros", and the profile).
ghost use Rattle.std.specs.Prelude.{◌≡◌, ◌∷◌, ◌++◌, Some, OnOk, OnErr, MatchOption, option_map};
ghost use Rattle.mk_macro.specs.Answers.{AnswersLeft};
ghost use Rattle.mk_macro.specs.Assignments.{IsAssigned, IsAssignment, LeadsTo, delayed, effect, first_effect};
ghost use Rattle.mk_macro.specs.Macros.{defined, macros_of};

use crate::definition::{Definition, Manner};
use crate::macros::Macros;
use mk_lines::line::{Line, Operator};
use mk_lines::parts::Parts;
use mk_name::fault::Halt;
use std::alloc::{AllocError, Global};

impl Macros {
    /// How the macro came by its value, if it is defined.
    fn manner(&self, name: &[u8]) -> Option<Manner>
        ensures { result ≡ option_map (λ d. d.manner) (macros_of self.now name.now) }
    {
        match self.definition(name) {
            Some(definition) => Some(definition.manner()),
            None => None,
        }
    }

    /// Defines a macro whose value is expanded where it is used, unless an operand gave it its value.
    fn set_delayed(&mut self, alloc: Global, name: &[u8], text: &[u8]) -> Result<(), Halt>
        ensures answer { AnswersLeft result (macros_of self.new)
            (IsAssigned (macros_of self.old) name.now Operator.Delayed text.now) }
        ensures unchanged { OnErr result (macros_of self.new ≡ macros_of self.old) }
    {
        let value = Vec::from_slice(alloc, text)?;
        let definition = Definition::new(value, Manner::Delayed);
        self.define_unless_given(alloc, name, definition)?;
        Ok(())
    }

    /// Defines a macro as what a text expands to.
    fn set_immediate(&mut self, alloc: Global, name: &[u8], text: &[u8]) -> Result<(), Halt>
        ensures answer { AnswersLeft result (macros_of self.new)
            (LeadsTo (macros_of self.old) name.now (first_effect Operator.Immediate text.now)) }
        ensures unchanged { OnErr result (macros_of self.new ≡ macros_of self.old) }
    {
        let value = self.expand(alloc, text)?;
        self.define(alloc, name, Definition::new(value, Manner::Immediate))?;
        Ok(())
    }

    /// Puts one space and a text at the end of a macro's value, if it is defined.
    fn add(&mut self, alloc: Global, name: &[u8], text: &[u8]) -> Result<(), AllocError>
        ensures extended { OnOk result (MatchOption (macros_of self.old name.now)
            (macros_of self.new ≡ macros_of self.old)
            (λ old. macros_of self.new ≡ defined (macros_of self.old) name.now
            (record old { value = old.value ++ 32 ∷ text.now }))) }
        ensures unchanged { OnErr result (macros_of self.new ≡ macros_of self.old) }
    {
        let mut added = Vec::new(alloc);
        added.push(b' ')?;
        added.extend_from_slice(text)?;
        self.extend(name, &added)
    }

    /// Adds a text to a macro that was made in this manner.
    fn append(
        &mut self,
        alloc: Global,
        name: &[u8],
        manner: Manner,
        text: &[u8],
    ) -> Result<(), Halt>
        requires { option_map (λ d. d.manner) (macros_of self.old name.now) ≡ Some manner }
        ensures answer { AnswersLeft result (macros_of self.new)
            (IsAssigned (macros_of self.old) name.now Operator.Append text.now) }
        ensures unchanged { OnErr result (macros_of self.new ≡ macros_of self.old) }
    {
        match manner {
            Manner::Given => Ok(()),
            Manner::Delayed => {
                self.add(alloc, name, text)?;
                Ok(())
            }
            Manner::Immediate => {
                let value = self.expand(alloc, text)?;
                self.add(alloc, name, &value)?;
                Ok(())
            }
        }
    }

    /// Assigns a text to a name.
    fn assign_text(
        &mut self,
        alloc: Global,
        name: &[u8],
        operator: Operator,
        text: &[u8],
    ) -> Result<(), Halt>
        ensures answer { AnswersLeft result (macros_of self.new)
            (IsAssigned (macros_of self.old) name.now operator text.now) }
        ensures unchanged { OnErr result (macros_of self.new ≡ macros_of self.old) }
    {
        match operator {
            Operator::Delayed => self.set_delayed(alloc, name, text),
            Operator::Immediate => match self.manner(name) {
                Some(Manner::Given) => Ok(()),
                _ => self.set_immediate(alloc, name, text),
            },
            Operator::Append => match self.manner(name) {
                Some(manner) => self.append(alloc, name, manner, text),
                None => self.set_delayed(alloc, name, text),
            },
            Operator::Conditional => match self.manner(name) {
                Some(_) => Ok(()),
                None => self.set_delayed(alloc, name, text),
            },
        }
    }

    /// Does what an assignment says ("Macros"); any other line changes nothing. `=` keeps the text as
    /// it is; `::=` and `:=` expand it at once, and it is never expanded again; `+=` adds one space
    /// and the text, which it expands where the value was expanded; `?=` is `=` where the name stands
    /// for nothing yet. On such a name `+=` is `=` too (profile). An operand's macro stays as it is,
    /// and the text is not looked at (profile).
    ///
    /// The faults are those of [`Macros::expand`]. After a fault, and after out of memory, which may
    /// come in place of any answer, the macros are as before.
    pub fn assign(&mut self, alloc: Global, line: &Line) -> Result<(), Halt>
        ensures answer { AnswersLeft result (macros_of self.new)
            (IsAssignment (macros_of self.old) line.now) }
        ensures unchanged { OnErr result (macros_of self.new ≡ macros_of self.old) }
    {
        match line.parts() {
            Parts::Assign(parts) => {
                self.assign_text(alloc, parts.name(), parts.operator(), parts.value())
            }
            Parts::Entry(_) | Parts::Recipe | Parts::Include(_) => Ok(()),
        }
    }
}
