//! What a macro stands for (POSIX.1-2024 XCU make, "Macros").
ghost use Rattle.std.specs.Prelude.{◌≡◌, ◌↔◌, ◌++◌, ◌<◌, ◌^◌, length, IfOk, IsTrue, OnOk, OnErr};
ghost use Rattle.mk_macro.specs.Expansion.{is_late};
ghost use Rattle.mk_macro.specs.Limits.{IsFinal};
ghost use Rattle.mk_macro.specs.Macros.{is_given};

use crate::item::holds;
use crate::layer::BYTE_LIMIT;
use std::alloc::{AllocError, Global};
use std::marker::Model;

/// How a macro came by its value.
#[derive(Clone, Copy, Debug)]
pub enum Manner {
    /// The value is expanded where the macro is used.
    Delayed,
    /// The value was expanded when it was assigned, and never is again.
    Immediate,
    /// An operand gave the value. It is expanded where the macro is used, and no line changes it.
    Given,
}

/// A macro's value, and how it came by it.
#[derive(Debug, Drop)]
pub struct Definition {
    value: Vec<u8>,
    manner: Manner,
}

impl Model for Definition {
    ghost use Rattle.mk_macro.specs.Macros.{Definition};

    ghost Value = { Definition };

    ghost view = { λ a. record { value = a.value.items; manner = a.manner } };
}

impl Clone for Definition {
    ghost is_clone = { λ old new. new ≡ old };

    fn clone(&self) -> Result<Definition, AllocError> {
        Ok(Definition {
            value: self.value.clone()?,
            manner: self.manner,
        })
    }
}

impl Definition {
    /// The definition of this value, which came in this manner.
    pub fn new(value: Vec<u8>, manner: Manner) -> Definition
        ensures { result ≡ record { value = value.items; manner = manner } }
    {
        Definition { value, manner }
    }

    /// The value.
    pub fn value(&self) -> &[u8]
        ensures value { result.now ≡ self.now.value }
        ensures short { length result.now < 2 ^ 64 }
    {
        &self.value
    }

    /// How the value came.
    pub fn manner(&self) -> Manner
        ensures { result ≡ self.now.manner }
    {
        self.manner
    }

    /// Whether the value is expanded where the macro is used.
    pub fn is_late(&self) -> bool
        ensures { result ≡ is_late self.now.manner }
    {
        match self.manner {
            Manner::Immediate => false,
            Manner::Delayed | Manner::Given => true,
        }
    }

    /// Whether the value stands for itself wherever the macro is used: it is never expanded, or it has no dollar sign and is no
    /// longer than an expanded text may be.
    pub fn is_final(&self) -> bool
        ensures { IsTrue result ↔ IsFinal self.now }
    {
        if !self.is_late() {
            return true;
        }
        self.value.len() <= BYTE_LIMIT && !holds(&self.value, b'$')
    }

    /// Whether an operand gave the value.
    pub fn is_given(&self) -> bool
        ensures { result ≡ is_given self.now.manner }
    {
        matches!(self.manner, Manner::Given)
    }

    /// Puts a text at the end of the value. The only error is out of memory, and then nothing is
    /// changed.
    pub fn extend(&mut self, text: &[u8]) -> Result<(), AllocError>
        ensures extended { OnOk result
            (self.new ≡ record self.old { value = self.old.value ++ text.now }) }
        ensures unchanged { OnErr result (self.new ≡ self.old) }
    {
        self.value.extend_from_slice(text)
    }
}
