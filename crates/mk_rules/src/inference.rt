//! Which entries are inference rules ("Inference Rules").
ghost use Rattle.std.specs.Prelude.{◌≡◌, ◌+◌, ◌<◌, ◌==◌, ◌&&◌, true, drop, take, length, not, position, IfOk, IfSome};
ghost use Rattle.std.specs.List.{All};
ghost use Rattle.mk_name.specs.Names.{has, same_name};
ghost use Rattle.mk_rules.specs.Book.{is_inference_rule, is_target_rule};
ghost use Rattle.mk_rules.specs.Special.{can_infer, is_pair, is_suffix};

use crate::rule::Rule;
use crate::special::is_special;
use mk_name::name::Name;
use mk_table::hasher::NameSet;
use std::alloc::{AllocError, Global};

/// Where the first period behind the first byte stands, counted from behind that byte.
fn next_period(bytes: &[u8]) -> Option<usize>
    ensures place { result ≡ position (λ b. b == 46) (drop 1 bytes.now) }
    ensures within { IfSome result (λ place. place + 1 < length bytes.now) }
{
    bytes.iter().skip(1).position(|byte| *byte == b'.')
}

/// Whether two names are different suffixes of the list.
fn are_different(suffixes: &NameSet, first: &Name, second: &Name) -> bool
    ensures { result ≡ (not (same_name first.now second.now)
        && has same_name suffixes.now.keys first.now && has same_name suffixes.now.keys second.now) }
{
    first != second && suffixes.contains(first) && suffixes.contains(second)
}

/// Whether the first bytes of a name and those behind them are two different suffixes of the list.
fn parts_differ(
    alloc: Global,
    suffixes: &NameSet,
    name: &Name,
    cut: usize,
) -> Result<bool, AllocError>
    requires { cut < length name.now }
    ensures { IfOk result (λ answer. answer ≡ (not (same_name (take cut name.now) (drop cut name.now))
        && has same_name suffixes.now.keys (take cut name.now)
        && has same_name suffixes.now.keys (drop cut name.now))) }
{
    let first = Name::from_bytes(Vec::from_slice(alloc, &name.as_bytes()[..cut])?);
    let second = Name::from_bytes(Vec::from_slice(alloc, &name.as_bytes()[cut..])?);
    Ok(are_different(suffixes, &first, &second))
}

/// Whether the name is two different suffixes of the list, joined. A suffix has one period, so the name
/// can be cut at its second period alone.
fn is_pair(alloc: Global, suffixes: &NameSet, name: &Name) -> Result<bool, AllocError>
    requires { All (λ s. is_suffix s ≡ true) suffixes.now.keys }
    ensures { IfOk result (λ answer. answer ≡ is_pair suffixes.now.keys name.now) }
{
    match next_period(name.as_bytes()) {
        Some(place) => parts_differ(alloc, suffixes, name, place + 1),
        None => Ok(false),
    }
}

/// Whether an inference rule can have the name: one suffix of the list, or two different ones.
fn can_infer(alloc: Global, suffixes: &NameSet, name: &Name) -> Result<bool, AllocError>
    requires { All (λ s. is_suffix s ≡ true) suffixes.now.keys }
    ensures { IfOk result (λ answer. answer ≡ can_infer suffixes.now.keys name.now) }
{
    if suffixes.contains(name) {
        return Ok(true);
    }
    is_pair(alloc, suffixes, name)
}

/// Whether the entry is an inference rule: commands, no prerequisites, and a single target that
/// an inference rule can have. The only error is out of memory.
pub(crate) fn is_inference_rule(
    alloc: Global,
    suffixes: &NameSet,
    entry: &Rule,
) -> Result<bool, AllocError>
    requires { All (λ s. is_suffix s ≡ true) suffixes.now.keys }
    ensures { IfOk result (λ answer. answer ≡ is_inference_rule suffixes.now.keys entry.now) }
{
    if !entry.has_commands() || !entry.prerequisites().is_empty() {
        return Ok(false);
    }
    match entry.targets() {
        [target] if !is_special(target) => can_infer(alloc, suffixes, target),
        _ => Ok(false),
    }
}

/// Whether the entry is a target rule: it has targets, none of them special, and is no inference rule.
/// The only error is out of memory.
pub(crate) fn is_target_rule(
    alloc: Global,
    suffixes: &NameSet,
    entry: &Rule,
) -> Result<bool, AllocError>
    requires { All (λ s. is_suffix s ≡ true) suffixes.now.keys }
    ensures { IfOk result (λ answer. answer ≡ is_target_rule suffixes.now.keys entry.now) }
{
    if !entry.has_targets() || entry.has_special_target() {
        return Ok(false);
    }
    Ok(!is_inference_rule(alloc, suffixes, entry)?)
}
