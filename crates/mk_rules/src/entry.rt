//! What an entry says.
ghost use Rattle.std.specs.Prelude.{◌≡◌, codes, find, IfOk};
ghost use Rattle.std.specs.Option.{option_copied};
ghost use Rattle.mk_name.specs.Gives.{Answers, Gives};
ghost use Rattle.mk_name.specs.Names.{has, same_name};
ghost use Rattle.mk_macro.specs.Macros.{macros_of};
ghost use Rattle.mk_rules.specs.Entries.{EntrySays, PartSays, checked_entry, entry_of, has_default_prerequisites, mixed_special};
ghost use Rattle.mk_rules.specs.Special.{is_special};
ghost use Rattle.mk_rules.specs.Words.{AnswersNames};

use crate::placed::Placed;
use crate::rule::Rule;
use crate::special::is_special;
use crate::words::names_in;
use mk_lines::parts::EntryParts;
use mk_macro::macros::Macros;
use mk_name::fault::{Fault, Halt, Kind, Source};
use mk_name::name::Name;
use mk_text::root::Root;
use std::alloc::{AllocError, Global};

/// The names in what a part of an entry expands to.
fn names_of_part(
    alloc: Global,
    part: &[u8],
    macros: &Macros,
    root: &Root,
) -> Result<Vec<Name>, Halt>
    ensures { AnswersNames result (PartSays root.now (macros_of macros.now) part.now) }
{
    let text = macros.expand(alloc, part)?;
    names_in(alloc, &text, root)
}

/// The first special one of some targets.
fn first_special(targets: &[Name]) -> Option<&Name>
    ensures { option_copied result ≡ find is_special targets.now }
{
    targets.iter().find(|target| is_special(target))
}

/// The first special one of several targets.
fn mixed_special(targets: &[Name]) -> Option<&Name>
    ensures { option_copied result ≡ mixed_special targets.now }
{
    if targets.len() > 1 {
        first_special(targets)
    } else {
        None
    }
}

/// Whether the name is `.DEFAULT`.
fn is_default(name: &Name) -> bool
    ensures { result ≡ same_name name.now (codes ".DEFAULT") }
{
    name.as_bytes() == b".DEFAULT".as_slice()
}

/// Whether `.DEFAULT` is one of the targets.
fn has_default(targets: &[Name]) -> bool
    ensures { result ≡ has same_name targets.now (codes ".DEFAULT") }
{
    targets.iter().any(|target| is_default(target))
}

/// Whether `.DEFAULT` has prerequisites.
fn has_default_prerequisites(targets: &[Name], prerequisites: &[Name]) -> bool
    ensures { result ≡ has_default_prerequisites targets.now prerequisites.now }
{
    !prerequisites.is_empty() && has_default(targets)
}

/// The entry, unless it has a special target beside another, or is `.DEFAULT` with prerequisites.
fn checked_entry(alloc: Global, rule: Rule) -> Result<Rule, Halt>
    ensures { Gives result (checked_entry rule) }
{
    if let Some(name) = mixed_special(rule.targets()) {
        let (kind, name) = (Kind::MixedSpecial, name.copy(alloc)?);
        let fault = Fault::naming(alloc, kind, Source::Makefile, 0, name)?;
        return Err(Halt::Fault(fault));
    }
    if has_default_prerequisites(rule.targets(), rule.prerequisites()) {
        let kind = Kind::DefaultPrerequisites;
        let fault = Fault::unnamed(alloc, kind, Source::Makefile, 0);
        return Err(Halt::Fault(fault));
    }
    Ok(rule)
}

/// The entry of a line with these names, which has a command behind its semicolon or not.
fn entry_of(
    alloc: Global,
    placed: &Placed,
    has_command: bool,
    targets: Vec<Name>,
    prerequisites: Vec<Name>,
) -> Result<Rule, AllocError>
    ensures { IfOk result (λ rule.
        rule ≡ entry_of placed.now has_command targets.items prerequisites.items) }
{
    let source = placed.source.copy(alloc)?;
    let has_commands = has_command || placed.command_below;
    let line = placed.line.first_line();
    Rule::new(alloc, source, line, targets, prerequisites, has_commands)
}

/// What an entry of these parts says.
pub(crate) fn read_entry(
    alloc: Global,
    placed: &Placed,
    parts: &EntryParts,
    macros: &Macros,
    root: &Root,
) -> Result<Rule, Halt>
    ensures { Answers result (EntrySays root.now (macros_of macros.now) placed.now parts.now) }
{
    let targets = names_of_part(alloc, parts.targets(), macros, root)?;
    let prerequisites = names_of_part(alloc, parts.prerequisites(), macros, root)?;
    let rule = entry_of(alloc, placed, parts.has_command(), targets, prerequisites)?;
    checked_entry(alloc, rule)
}
