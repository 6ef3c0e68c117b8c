//! What a text expands to (POSIX.1-2024 XCU make, "Macros", and the profile).
ghost use Rattle.std.specs.Prelude.{◌≡◌, ◌≤◌, ◌<◌, ◌^◌, false, length, option_map, IfErr, IfOk, IfSome};
ghost use Rattle.std.specs.Option.{option_copied};
ghost use Rattle.mk_macro.specs.Answers.{AnswersText};
ghost use Rattle.mk_macro.specs.Expansion.{IsExpansion, byte_limit};
ghost use Rattle.mk_macro.specs.Limits.{IsOverReferred, IsReferred};
ghost use Rattle.mk_macro.specs.Macros.{macros_of};
ghost use Rattle.mk_macro.specs.References.{holds};
ghost use Rattle.mk_lines.specs.Outside.{dollar};

use crate::definition::Definition;
use crate::fault::unnamed;
use crate::item::{Item, Reference, first_item, holds};
use crate::layer::BYTE_LIMIT;
use crate::macros::Macros;
use crate::open::{Open, refuse};
use crate::output::Output;
use mk_name::fault::{Halt, Kind};
use std::alloc::Global;

/// Puts what a reference to this macro gives at the end of the innermost text, where that is no more than the
/// limit; or gives the value that is to be expanded first.
fn refer<'a>(
    out: &mut Output,
    alloc: Global,
    reference: &Reference,
    definition: Option<&'a Definition>,
) -> Result<Option<&'a [u8]>, Halt>
    ensures referred { IfOk result (λ value. IsReferred (option_copied definition.entry)
        reference.now.change out.old out.new (option_map (λ v. v.now) value)) }
    ensures over { IfErr result (IsOverReferred (option_copied definition.entry) reference.now.change out.old) }
    ensures short { IfOk result (λ value. IfSome value (λ v. length v.now < 2 ^ 64)) }
{
    match definition {
        None => Ok(None),
        Some(definition) if definition.is_final() => {
            out.push(alloc, reference.change(), definition.value())?;
            Ok(None)
        }
        Some(definition) => Ok(Some(definition.value())),
    }
}

impl Macros {
    /// What a text expands to ("Macros"): each reference gives the value of its macro, changed by
    /// its substitution, and nothing where the macro is not defined; `$$` gives a dollar sign. A
    /// value that is not immediate is expanded first, as the text of its own.
    ///
    /// The first item that fails decides, from left to right, and inside a value before what follows
    /// the reference to it. The fault is in the source `Makefile` at place 0, which who calls sets:
    /// `BadReference` for a wrong form, `InternalMacro` with the name (profile), `ExpansionTooLarge`
    /// at the reference after 10,000 and where a text comes to more than 65,536 bytes (profile),
    /// `MacroLoop` with the name of a macro whose value is being expanded. Of one reference they come
    /// in this order, but the length last. Out of memory may come in place of any answer.
    pub fn expand(&self, alloc: Global, text: &[u8]) -> Result<Vec<u8>, Halt>
        ensures { AnswersText result (IsExpansion (macros_of self.now) text.now) }
    {
        if text.len() <= BYTE_LIMIT && !holds(text, b'$') {
            return self.expand_plain(alloc, text);
        }
        self.expand_items(alloc, text)
    }

    /// What a text without a dollar sign expands to, which may be so long: itself.
    fn expand_plain(&self, alloc: Global, text: &[u8]) -> Result<Vec<u8>, Halt>
        requires short { length text.now ≤ byte_limit }
        requires plain { holds dollar text.now ≡ false }
        ensures { AnswersText result (IsExpansion (macros_of self.now) text.now) }
    {
        Ok(Vec::from_slice(alloc, text)?)
    }

    /// What a text expands to, item by item.
    fn expand_items(&self, alloc: Global, text: &[u8]) -> Result<Vec<u8>, Halt>
        ensures { AnswersText result (IsExpansion (macros_of self.now) text.now) }
    {
        let mut out = Output::new(alloc);
        let mut opens: Vec<Open> = Vec::new(alloc);
        let mut rest = text;
        let mut count = 0;
        let mut last = None;
        'items: loop {
            let Some((item, behind)) = first_item(rest) else {
                let Some(open) = opens.pop() else {
                    return Ok(out.finish()?);
                };
                out.close(alloc)?;
                rest = open.rest;
                continue;
            };
            rest = behind;
            match item {
                Item::Broken => return Err(unnamed(alloc, Kind::BadReference)),
                Item::Plain(bytes) => out.push(alloc, &None, bytes)?,
                Item::Refers(reference) => {
                    let name = reference.name();
                    refuse(alloc, &opens, count, name)?;
                    count += 1;
                    let found = self.recalled(last, name);
                    last = Some(found);
                    let value = refer(&mut out, alloc, &reference, found.definition)?;
                    if let Some(value) = value {
                        opens.push(Open { name, rest })?;
                        out.open(alloc, reference.into_change())?;
                        rest = value;
                    }
                }
            }
        }
    }
}
