//! What is kept of a text that is being expanded.
ghost use Rattle.std.specs.Prelude.{◌≡◌, ◌≤◌, ◌<◌, ◌+◌, ◌++◌, ℕ, List, [], IsTrue, ◌↔◌, length, option_map, IfErr, IfNone, IfOk, IfSome, OnOk};
ghost use Rattle.mk_macro.specs.Expansion.{byte_limit};
ghost use Rattle.mk_macro.specs.Layer.{Passes, Settles, TakesIn, longer, size};
ghost use Rattle.mk_macro.specs.Limits.{IsOver};
ghost use Rattle.mk_macro.specs.Substitution.{changed};
ghost use Rattle.mk_macro.specs.Words.{ComesToSame, reach};

use crate::fault::unnamed;
use crate::item::Change;
use crate::substitution::{push_changed, push_settled};
use mk_name::fault::{Halt, Kind};
use std::alloc::{AllocError, Global};
use std::marker::Model;

/// An expanded text has at most so many bytes (profile).
pub const BYTE_LIMIT: usize = 65_536;

/// What is kept of a text that is being expanded: the end of it that a later text may still change.
/// What stands before has gone on to the text around it. A text that is known to be longer than the
/// limit is not kept.
#[derive(Debug, Drop)]
pub struct Layer<'a> {
    change: Option<Change<'a>>,
    kept: Vec<u8>,
    passed: usize,
}

impl<'a> Model for Layer<'a> {
    ghost use Rattle.mk_macro.specs.Layer.{Layer};

    ghost Value = { Layer };

    ghost view = { λ a. record { change = a.change; kept = a.kept.items; passed = a.passed } };
}

impl<'a> Layer<'a> {
    /// A text without bytes, which goes on with this substitution.
    pub fn new(alloc: Global, change: Option<Change<'a>>) -> Layer<'a>
        ensures { result ≡ record { change = change.entry; kept = []; passed = 0 } }
    {
        Layer {
            change,
            kept: Vec::new(alloc),
            passed: 0,
        }
    }

    /// The substitution with which the text goes on.
    pub fn change(&self) -> &Option<Change<'a>>
        ensures { result.now ≡ self.now.change }
    {
        &self.change
    }

    /// What is kept of the text.
    pub fn kept(&self) -> &[u8]
        ensures { result.now ≡ self.now.kept }
    {
        &self.kept
    }

    /// Whether so many more bytes are within the limit.
    fn has_room(&self, more: usize) -> bool
        ensures { IsTrue result ↔ (size self.now + more ≤ byte_limit) }
    {
        let size = self.passed.saturating_add(self.kept.len());
        size.saturating_add(more) <= BYTE_LIMIT
    }

    /// Puts a text at the end, changed, unless that is more than the limit.
    pub fn push(&mut self, alloc: Global, change: &Option<Change>, text: &[u8]) -> Result<(), Halt>
        ensures text { OnOk result (self.new ≡ longer self.old (changed change.now text.now)) }
        ensures within { OnOk result (size self.new ≤ byte_limit) }
        ensures over { IfErr result (λ halt.
            IsOver halt byte_limit (size self.old + length (changed change.now text.now))) }
    {
        let Some(limit) = BYTE_LIMIT.checked_sub(self.passed) else {
            return Err(unnamed(alloc, Kind::ExpansionTooLarge));
        };
        push_changed(&mut self.kept, alloc, change, text, limit)
    }

    /// Keeps nothing of a text that is longer than the limit.
    fn give_up(&mut self, alloc: Global)
        ensures change { self.new.change ≡ self.old.change }
        ensures kept { self.new.kept ≡ [] }
        ensures over { byte_limit < size self.new }
    {
        self.kept = Vec::new(alloc);
        self.passed = BYTE_LIMIT + 1;
    }

    /// Takes in what flows from the text inside, and gives what of the text no later text can change;
    /// `None` stands for more than any text may have. The only error is out of memory.
    pub fn pass(
        &mut self,
        alloc: Global,
        flow: Option<Vec<u8>>,
    ) -> Result<Option<Vec<u8>>, AllocError>
        ensures passes { IfOk result (λ next. Passes self.old (option_map (λ v. v.items) flow)
            self.new (option_map (λ v. v.items) next)) }
        ensures short { OnOk result (length self.new.kept ≤ reach self.new.change) }
    {
        self.take_in(alloc, flow)?;
        self.settle(alloc)
    }

    /// Takes in what flows from the text inside; `None` stands for more than any text may have. The
    /// only error is out of memory.
    fn take_in(&mut self, alloc: Global, flow: Option<Vec<u8>>) -> Result<(), AllocError>
        ensures { OnOk result (TakesIn self.old self.new (option_map (λ v. v.items) flow)) }
    {
        match flow {
            Some(flow) if self.has_room(flow.len()) => self.kept.extend_from_slice(&flow),
            _ => {
                self.give_up(alloc);
                Ok(())
            }
        }
    }

    /// Gives what of the text no later text can change, and keeps the rest; `None` stands for more
    /// than any text may have. The only error is out of memory.
    fn settle(&mut self, alloc: Global) -> Result<Option<Vec<u8>>, AllocError>
        ensures { IfOk result (λ flow. Settles self.old self.new (option_map (λ v. v.items) flow)) }
    {
        if !self.has_room(0) {
            self.give_up(alloc);
            return Ok(None);
        }
        let (left, flow) = settled(alloc, &self.change, &self.kept)?;
        self.passed += self.kept.len() - left.len();
        self.kept = left;
        Ok(flow)
    }
}

/// What of a text no later text can change, changed, behind what is left of the text; `None` stands
/// for more than any text may have. The only error is out of memory.
fn settled(
    alloc: Global,
    change: &Option<Change>,
    text: &[u8],
) -> Result<(Vec<u8>, Option<Vec<u8>>), AllocError>
    ensures short { IfOk result (λ parts. length parts.0.items ≤ reach change.now) }
    ensures inside { IfOk result (λ parts. length parts.0.items ≤ length text.now) }
    ensures flows { IfOk result (λ parts. IfSome parts.1 (λ flow.
        ComesToSame change.now text.now [] parts.0.items flow.items)) }
    ensures over { IfOk result (λ parts. IfNone parts.1 ((later : List ℕ) →
        byte_limit < length (changed change.now (text.now ++ later)))) }
{
    let mut flow = Vec::new(alloc);
    match push_settled(&mut flow, alloc, change, text, BYTE_LIMIT) {
        Ok(left) => {
            let left = Vec::from_slice(alloc, left)?;
            Ok((left, Some(flow)))
        }
        Err(Halt::Fault(_)) => Ok((Vec::new(alloc), None)),
        Err(Halt::Memory) => Err(AllocError),
    }
}
