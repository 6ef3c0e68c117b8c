//! A book of entries that are made by hand, and what its queries say of the rules.
use crate::made::{holds_of, name_of};
use mk_name::fault::Source;
use mk_name::name::Name;
use mk_rules::rule::Rule;
use mk_rules::rulebook::Rulebook;
use std::alloc::{AllocError, Global};

/// The lines of the entries for `.c`, which is no suffix of a list, and what each needs: the first one needs nothing, and has
/// commands; of the others two need the same.
static ENTRIES: [(u64, &str); 4] = [(7, ""), (8, "b"), (9, "a"), (10, "b")];

/// The list of this name, if there is one.
fn list_of(alloc: Global, name: &str) -> Result<Vec<Name>, AllocError> {
    let mut names = Vec::new(alloc);
    if !name.is_empty() {
        names.push(name_of(alloc, name.as_bytes())?)?;
    }
    Ok(names)
}

/// The entry of the base makefile for `.c` at a line, with what it needs, or commands.
fn entry(alloc: Global, line: u64, need: &str) -> Result<Rule, AllocError> {
    let targets = list_of(alloc, ".c")?;
    let needs = list_of(alloc, need)?;
    Rule::new(alloc, Source::Base, line, targets, needs, need.is_empty())
}

fn entries(alloc: Global) -> Result<Vec<Rule>, AllocError> {
    let mut rules = Vec::new(alloc);
    for (line, need) in &ENTRIES {
        rules.push(entry(alloc, *line, need)?)?;
    }
    Ok(rules)
}

fn book(alloc: Global) -> Result<Rulebook, AllocError> {
    Rulebook::new(alloc, entries(alloc)?)
}

/// Whether a name is a target of each rule, and its commands those of the first, which is no inference rule.
fn is_ruled(book: &Rulebook, name: &Name) -> bool {
    book.rules_of(name) == [0, 1, 2, 3].as_slice()
        && book.recipe_place(name) == Some(0)
        && !book.has_inference(name)
}

/// Whether these are the names of all that the rules need, each once.
fn are_joined(names: &[Name]) -> bool {
    match names {
        [first, second] => {
            first.as_bytes() == b"b".as_slice() && second.as_bytes() == b"a".as_slice()
        }
        _ => false,
    }
}

fn has_joined(alloc: Global, book: &Rulebook, name: &Name) -> bool {
    match book.prerequisites(alloc, name) {
        Ok(names) => are_joined(&names),
        Err(_) => false,
    }
}

/// Whether the book has the rules, as they were made.
fn is_made(alloc: Global, book: &Rulebook) -> bool {
    match book.target(0) {
        Some(name) => {
            book.rule_count() == 4
                && book.rule_line(0) == 7
                && is_ruled(book, name)
                && has_joined(alloc, book, name)
        }
        None => false,
    }
}

fn book_is_made(alloc: Global) -> bool {
    holds_of(alloc, book(alloc), is_made)
}

#[test]
fn a_book(rt: HostRuntime) {
    assert!(rt; book_is_made(rt.alloc()));
}
