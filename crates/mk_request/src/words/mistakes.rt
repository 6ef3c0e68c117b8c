//! What is wrong with the values of a subcommand, where `clap` finds nothing wrong with its words.
ghost use Rattle.std.specs.Prelude.{◌≡◌, ◌&&◌, [], ◌∷◌, MatchOption, Some, is_some, not};
ghost use Rattle.clap.specs.Words.{found_of, rows_of};
ghost use Rattle.mk_request.specs.CommandLine as spec;

use super::is_set;
use clap::ArgMatches;
use clap::error::ErrorKind;

/// What is wrong, and the words that say it.
#[derive(Clone, Copy)]
pub(super) struct Mistake {
    pub(super) kind: ErrorKind,
    pub(super) message: &'static str,
}

/// What is wrong with the values of the subcommand of this name: two bases, or tasks beside a build, or too little of a build.
pub(super) fn mistake_in<'a>(name: &str, found: &ArgMatches<'a>) -> Option<Mistake>
    ensures { MatchOption result
        (spec.value_kinds (Some (name.now, rows_of (found_of found.now))) ≡ [])
        (λ mistake. spec.value_kinds (Some (name.now, rows_of (found_of found.now))) ≡ mistake.kind ∷ []) }
{
    if has_two_bases(found) {
        return Some(Mistake {
            kind: ErrorKind::ArgumentConflict,
            message: "the argument '--posix-base' cannot be used with '--base <BASE>'",
        });
    }
    if let Some(message) = beside_tasks(name, found) {
        return Some(Mistake {
            kind: ErrorKind::ArgumentConflict,
            message,
        });
    }
    if let Some(message) = lacking_files(name, found) {
        return Some(Mistake {
            kind: ErrorKind::MissingRequiredArgument,
            message,
        });
    }
    None
}

/// Whether these matches of a subcommand give two base makefiles.
fn has_two_bases<'a>(found: &ArgMatches<'a>) -> bool
    ensures { result ≡ spec.has_two_bases (rows_of (found_of found.now)) }
{
    is_set(found, "posix-base") && is_given(found, "base")
}

/// Whether these matches have a value of this name.
fn is_given<'a>(found: &ArgMatches<'a>, name: &str) -> bool
    ensures { result ≡ spec.is_given name.now (rows_of (found_of found.now)) }
{
    found.get_str(name).is_some()
}

/// That the subcommand of this name has tasks beside a file, an operand or a flag of a build: which of these is the first.
fn beside_tasks<'a>(name: &str, found: &ArgMatches<'a>) -> Option<&'static str>
    ensures { is_some result ≡ spec.has_both name.now (rows_of (found_of found.now)) }
{
    if !is_given(found, "tasks") {
        return None;
    }
    if is_given(found, "makefile") {
        return Some("the argument '--tasks <TASKS>' cannot be used with '--makefile <MAKEFILE>'");
    }
    if name != "missing" && is_given(found, "listing") {
        return Some("the argument '--tasks <TASKS>' cannot be used with '--listing <LISTING>'");
    }
    if is_given(found, "base") {
        return Some("the argument '--tasks <TASKS>' cannot be used with '--base <BASE>'");
    }
    if is_set(found, "posix-base") {
        return Some("the argument '--tasks <TASKS>' cannot be used with '--posix-base'");
    }
    if is_given(found, "includes") {
        return Some("the argument '--tasks <TASKS>' cannot be used with '--includes <FILE>'");
    }
    if is_given(found, "footprints") {
        return Some(
            "the argument '--tasks <TASKS>' cannot be used with '--footprints <FOOTPRINTS>'",
        );
    }
    if is_given(found, "operands") {
        return Some("the argument '--tasks <TASKS>' cannot be used with '[OPERAND]...'");
    }
    if is_set(found, "strict") {
        return Some("the argument '--tasks <TASKS>' cannot be used with '--strict'");
    }
    None
}

/// That the subcommand of this name has neither tasks nor all files of a build: which of these files are missing.
fn lacking_files<'a>(name: &str, found: &ArgMatches<'a>) -> Option<&'static str>
    ensures { is_some result ≡ spec.lacks_files name.now (rows_of (found_of found.now)) }
{
    if name == "order" || is_given(found, "tasks") {
        return None;
    }
    if name == "missing" && !is_given(found, "makefile") && !is_given(found, "footprints") {
        return Some(
            "the following required arguments were not provided:\n  --tasks <TASKS>, or --makefile <MAKEFILE> and --footprints <FOOTPRINTS>",
        );
    }
    missing(
        is_given(found, "makefile"),
        is_given(found, "listing"),
        is_given(found, "footprints"),
    )
}

/// Which files of a build are missing, by what is given.
fn missing(makefile: bool, listing: bool, footprints: bool) -> Option<&'static str>
    ensures { is_some result ≡ not (makefile && listing && footprints) }
{
    match (makefile, listing, footprints) {
        (true, true, true) => None,
        (true, true, false) => Some(
            "the following required arguments were not provided:\n  --footprints <FOOTPRINTS>",
        ),
        (true, false, true) => Some(
            "the following required arguments were not provided:\n  --listing <LISTING>",
        ),
        (false, true, true) => Some(
            "the following required arguments were not provided:\n  --makefile <MAKEFILE>",
        ),
        (true, false, false) => Some(
            "the following required arguments were not provided:\n  --listing <LISTING>\n  --footprints <FOOTPRINTS>",
        ),
        (false, true, false) => Some(
            "the following required arguments were not provided:\n  --makefile <MAKEFILE>\n  --footprints <FOOTPRINTS>",
        ),
        (false, false, true) => Some(
            "the following required arguments were not provided:\n  --makefile <MAKEFILE>\n  --listing <LISTING>",
        ),
        (false, false, false) => Some(
            "the following required arguments were not provided:\n  --tasks <TASKS>, or --makefile <MAKEFILE>, --listing <LISTING> and --footprints <FOOTPRINTS>",
        ),
    }
}
