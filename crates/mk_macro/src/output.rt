//! What texts that are expanded one inside the other have come to.
ghost use Rattle.std.specs.Prelude.{◌≡◌, ◌≤◌, ◌+◌, ◌++◌, ◌∷◌, ℕ, List, [], length, min, option_map, reverse, IfErr, IfOk, OnOk};
ghost use Rattle.mk_macro.specs.Expansion.{byte_limit};
ghost use Rattle.mk_macro.specs.Layer.{AreShort, IsCounted, OutputHolds, Puts, Relays, Text, grown};
ghost use Rattle.mk_macro.specs.Limits.{IsOver, IsTooMuch};
ghost use Rattle.mk_macro.specs.Substitution.{changed};

use crate::item::Change;
use crate::layer::{BYTE_LIMIT, Layer};
use mk_name::fault::Halt;
use std::alloc::{AllocError, Global};
use std::marker::Model;
use std::mem;

/// What texts that are expanded one inside the other have come to. When the texts around the
/// innermost hold more than the limit, what later texts cannot change flows outwards, so that all
/// together never keep more than some times the limit, and of each text as much as its substitution
/// looks for.
#[derive(Debug, Drop)]
pub struct Output<'a> {
    done: Vec<u8>,
    outer: Vec<Layer<'a>>,
    top: Layer<'a>,
    loose: usize,
}

impl<'a> Model for Output<'a> {
    ghost use Rattle.mk_macro.specs.Layer.{Output};

    ghost Value = { Output };

    ghost view = { λ a. record { done = a.done.items; outer = a.outer.items; top = a.top; loose = a.loose } };
}

impl<'a> Output<'a> {
    /// One text, without bytes.
    pub fn new(alloc: Global) -> Output<'a>
        ensures { OutputHolds result (record { change = None; own = [] }) [] }
    {
        Output {
            done: Vec::new(alloc),
            outer: Vec::new(alloc),
            top: Layer::new(alloc, None),
            loose: 0,
        }
    }

    /// Puts a text at the end of the innermost, changed, unless that is more than the limit.
    pub fn push(&mut self, alloc: Global, change: &Option<Change>, bytes: &[u8]) -> Result<(), Halt>
        ensures put { OnOk result (Puts self.old self.new (changed change.now bytes.now)) }
        ensures over { IfErr result (λ halt.
            IsTooMuch self.old (changed change.now bytes.now) halt) }
        ensures counted { OnOk result (self.new.loose ≡ self.old.loose) }
    {
        self.top.push(alloc, change, bytes)
    }

    /// Begins a text inside the innermost, which goes on to it with this substitution. The only
    /// error is out of memory.
    pub fn open(&mut self, alloc: Global, change: Option<Change<'a>>) -> Result<(), AllocError>
        ensures opened { OnOk result ((text : Text) (texts : List Text) → OutputHolds self.old text texts
            → OutputHolds self.new (record { change = change.entry; own = [] }) (text ∷ texts)) }
        ensures counted { OnOk result (IsCounted self.old self.new) }
        ensures within { OnOk result (self.new.loose ≤ byte_limit) }
    {
        self.begin(alloc, change)?;
        if self.loose > BYTE_LIMIT {
            self.settle(alloc)?;
        }
        Ok(())
    }

    /// Begins a text inside the innermost.
    fn begin(&mut self, alloc: Global, change: Option<Change<'a>>) -> Result<(), AllocError>
        ensures opened { OnOk result ((text : Text) (texts : List Text) → OutputHolds self.old text texts
            → OutputHolds self.new (record { change = change.entry; own = [] }) (text ∷ texts)) }
        ensures counted { OnOk result
            (self.new.loose ≡ min (self.old.loose + length self.old.top.kept) usize.MAX) }
    {
        self.loose = self.loose.saturating_add(self.top.kept().len());
        let outer = mem::replace(&mut self.top, Layer::new(alloc, change));
        self.outer.push(outer)?;
        Ok(())
    }

    /// Ends the innermost text, and puts it at the end of the one around it.
    pub fn close(&mut self, alloc: Global) -> Result<(), Halt>
        ensures closed { OnOk result ((text next : Text) (texts : List Text) → OutputHolds self.old text (next ∷ texts)
            → OutputHolds self.new (grown next (changed text.change text.own)) texts) }
        ensures over { IfErr result (λ halt. (text next : Text) (texts : List Text) → OutputHolds self.old text (next ∷ texts)
            → IsOver halt byte_limit (length next.own + length (changed text.change text.own))) }
        ensures counted { OnOk result (self.new.loose ≡ self.old.loose) }
    {
        let Some(outer) = self.outer.pop() else {
            return Ok(());
        };
        let inner = mem::replace(&mut self.top, outer);
        self.top.push(alloc, inner.change(), inner.kept())
    }

    /// Lets what later texts cannot change flow outwards. The only error is out of memory.
    fn settle(&mut self, alloc: Global) -> Result<(), AllocError>
        ensures same { OnOk result ((text : Text) (texts : List Text) → OutputHolds self.old text texts
            → OutputHolds self.new text texts) }
        ensures short { OnOk result (AreShort self.new.outer) }
        ensures counted { OnOk result (self.new.loose ≡ 0) }
    {
        self.loose = 0;
        if let Some(flow) = relay(&mut self.outer, alloc)? {
            self.done.extend_from_slice(&flow)?;
        }
        Ok(())
    }

    /// The text, where it is the only one. The only error is out of memory.
    pub fn finish(self) -> Result<Vec<u8>, AllocError>
        ensures { IfOk result (λ all. (text : Text) → OutputHolds self.entry text [] → all.items ≡ text.own) }
    {
        let mut all = self.done;
        all.extend_from_slice(self.top.kept())?;
        Ok(all)
    }
}

/// Lets what is settled flow from each layer to the one around it, and gives what flows out of the
/// outermost; `None` stands for more than any text may have. The only error is out of memory.
fn relay(layers: &mut [Layer], alloc: Global) -> Result<Option<Vec<u8>>, AllocError>
    ensures relays { IfOk result (λ flow. Relays (reverse layers.old) (Some []) (reverse layers.new)
        (option_map (λ v. v.items) flow)) }
    ensures short { OnOk result (AreShort layers.new) }
{
    let mut flow = Some(Vec::new(alloc));
    let mut place = layers.len();
    'layers: while place > 0 {
        place -= 1;
        flow = layers[place].pass(alloc, flow)?;
    }
    Ok(flow)
}
