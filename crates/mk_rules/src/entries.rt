//! What a list of entries says ("Target Rules", "Inference Rules", "Special Targets").
ghost use Rattle.std.specs.Prelude.{◌≡◌, ◌==◌, [], true, codes, filter, length, map, if◌then◌else◌, IfOk, OnOk};
ghost use Rattle.std.specs.List.{All, flat_map, list_any};
ghost use Rattle.mk_name.specs.Names.{firsts, kept, same_name};
ghost use Rattle.mk_rules.specs.Book.{gives_commands, is_inference_rule, is_target_rule, names_target, suffixes_of, waits_of, without_waits};
ghost use Rattle.mk_rules.specs.Special.{is_suffix};

use crate::inference::{is_inference_rule, is_target_rule};
use crate::names::join;
use crate::rule::Rule;
use crate::special::is_suffix;
use indexmap::IndexSet;
use mk_name::name::Name;
use mk_table::hasher::{NameHasher, NameSet};
use std::alloc::{AllocError, Global};

/// How often entries with targets name `.WAIT` as a prerequisite; what would pass the greatest count
/// stays there.
pub(crate) fn wait_uses(entries: &[Rule]) -> u64
    ensures { result ≡ waits_of entries.now }
{
    let mut uses: u64 = 0;
    for entry in entries {
        if entry.has_targets() {
            uses = uses.saturating_add(entry.wait_uses() as u64);
        }
    }
    uses
}

/// Whether an entry gives `.DEFAULT` commands.
pub(crate) fn has_default(entries: &[Rule]) -> bool
    ensures { result ≡ list_any (gives_commands (codes ".DEFAULT")) entries.now }
{
    entries
        .iter()
        .any(|entry| entry.gives_commands(b".DEFAULT"))
}

/// The prerequisites of `.PHONY`, each where it first stands. The only error is out of memory.
pub(crate) fn phony(
    alloc: Global,
    hasher: NameHasher,
    entries: &[Rule],
) -> Result<NameSet, AllocError>
    ensures { IfOk result (λ names. names.keys
        ≡ firsts same_name (flat_map (λ e. e.prerequisites) (filter (names_target (codes ".PHONY")) entries.now))) }
{
    let mut names = IndexSet::with_hasher(alloc, hasher);
    for entry in entries {
        if entry.names_target(b".PHONY") {
            join(alloc, &mut names, entry.prerequisites())?;
        }
    }
    Ok(names)
}

/// Puts the names that are suffixes at the end of the list, unless they stand there; no names clear it.
fn note_suffixes(alloc: Global, suffixes: &mut NameSet, names: &[Name]) -> Result<(), AllocError>
    ensures { OnOk result (suffixes.new.keys
        ≡ (if length names.now == 0 then [] else kept same_name suffixes.old.keys (filter is_suffix names.now))) }
{
    if names.is_empty() {
        *suffixes = IndexSet::with_hasher(alloc, *suffixes.hasher());
        return Ok(());
    }
    add_suffixes(alloc, suffixes, names)
}

/// Puts the names that are suffixes at the end of the list, unless they stand there.
fn add_suffixes(alloc: Global, suffixes: &mut NameSet, names: &[Name]) -> Result<(), AllocError>
    ensures { OnOk result (suffixes.new.keys ≡ kept same_name suffixes.old.keys (filter is_suffix names.now)) }
{
    for name in names {
        if is_suffix(name) {
            suffixes.insert(name.copy(alloc)?)?;
        }
    }
    Ok(())
}

/// The list of suffixes in the end: what `.SUFFIXES` names since it was last cleared. The only error is
/// out of memory.
pub(crate) fn suffixes(
    alloc: Global,
    hasher: NameHasher,
    entries: &[Rule],
) -> Result<NameSet, AllocError>
    ensures names { IfOk result (λ names. names.keys ≡ suffixes_of entries.now) }
    ensures suffixes { IfOk result (λ names. All (λ s. is_suffix s ≡ true) names.keys) }
{
    let mut suffixes = IndexSet::with_hasher(alloc, hasher);
    for entry in entries {
        if entry.names_target(b".SUFFIXES") {
            note_suffixes(alloc, &mut suffixes, entry.prerequisites())?;
        }
    }
    Ok(suffixes)
}

/// The names of inference rules, each where it first stands. The only error is out of memory.
pub(crate) fn inference(
    alloc: Global,
    hasher: NameHasher,
    suffixes: &NameSet,
    entries: &[Rule],
) -> Result<NameSet, AllocError>
    requires { All (λ s. is_suffix s ≡ true) suffixes.now.keys }
    ensures { IfOk result (λ names. names.keys
        ≡ firsts same_name (flat_map (λ e. e.targets) (filter (is_inference_rule suffixes.now.keys) entries.now))) }
{
    let mut names = IndexSet::with_hasher(alloc, hasher);
    for entry in entries {
        if is_inference_rule(alloc, suffixes, entry)? {
            join(alloc, &mut names, entry.targets())?;
        }
    }
    Ok(names)
}

/// The target rules in their order, without `.WAIT` among their prerequisites. The only error is out of
/// memory.
pub(crate) fn target_rules(
    alloc: Global,
    suffixes: &NameSet,
    entries: Vec<Rule>,
) -> Result<Vec<Rule>, AllocError>
    requires { All (λ s. is_suffix s ≡ true) suffixes.now.keys }
    ensures { IfOk result (λ rules. rules.items
        ≡ map without_waits (filter (is_target_rule suffixes.now.keys) entries.items)) }
{
    let mut rules = Vec::new(alloc);
    for entry in entries {
        if is_target_rule(alloc, suffixes, &entry)? {
            rules.push(entry.without_waits())?;
        }
    }
    Ok(rules)
}
