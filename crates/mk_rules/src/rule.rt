//! An entry of a makefile.
ghost use Rattle.std.specs.Prelude.{◌≡◌, filter, length, IfOk};
ghost use Rattle.std.specs.List.{list_any};
ghost use Rattle.mk_name.specs.Names.{firsts, same_name};
ghost use Rattle.mk_rules.specs.Book.{gives_commands, has_targets, names_target, without_waits};
ghost use Rattle.mk_rules.specs.Special.{is_special, is_wait};

use crate::names::distinct;
use crate::special::{is_special, is_wait};
use mk_name::fault::Source;
use mk_name::name::Name;
use std::alloc::{AllocError, Global};
use std::marker::Model;

/// An entry of a makefile ("Makefile Syntax"): the text and the line, from 1, where it stands, its targets,
/// its prerequisites as they are written, and whether it has commands.
#[derive(Debug, Drop)]
pub struct Rule {
    source: Source,
    line: u64,
    targets: Vec<Name>,
    prerequisites: Vec<Name>,
    has_commands: bool,
}

impl Model for Rule {
    ghost use Rattle.mk_rules.specs.Book.{Entry};

    ghost Value = { Entry };

    ghost view = { λ a. record {
      source = a.source;
      line = a.line;
      targets = a.targets.items;
      prerequisites = a.prerequisites.items;
      has_commands = a.has_commands;
    } };
}

impl Rule {
    /// The entry of these parts. A target that stands twice counts once, where it first stands (profile).
    /// The only error is out of memory.
    pub fn new(
        alloc: Global,
        source: Source,
        line: u64,
        targets: Vec<Name>,
        prerequisites: Vec<Name>,
        has_commands: bool,
    ) -> Result<Rule, AllocError>
        ensures { IfOk result (λ rule. rule ≡ record {
          source = source;
          line = line;
          targets = firsts same_name targets.items;
          prerequisites = prerequisites.items;
          has_commands = has_commands;
        }) }
    {
        Ok(Rule {
            source,
            line,
            targets: distinct(alloc, targets)?,
            prerequisites,
            has_commands,
        })
    }

    /// The text where it stands.
    pub(crate) fn source(&self) -> &Source
        ensures { result.now ≡ self.now.source }
    {
        &self.source
    }

    /// The line where it stands, from 1.
    pub(crate) fn line(&self) -> u64
        ensures { result ≡ self.now.line }
    {
        self.line
    }

    /// Its targets, each once.
    pub(crate) fn targets(&self) -> &[Name]
        ensures { result.now ≡ self.now.targets }
    {
        self.targets.as_slice()
    }

    /// Its prerequisites, as they are written.
    pub(crate) fn prerequisites(&self) -> &[Name]
        ensures { result.now ≡ self.now.prerequisites }
    {
        self.prerequisites.as_slice()
    }

    /// Whether it has commands.
    pub(crate) fn has_commands(&self) -> bool
        ensures { result ≡ self.now.has_commands }
    {
        self.has_commands
    }

    /// Whether it has targets.
    pub(crate) fn has_targets(&self) -> bool
        ensures { result ≡ has_targets self.now }
    {
        !self.targets.is_empty()
    }

    /// Whether it names these bytes as a target.
    pub(crate) fn names_target(&self, bytes: &[u8]) -> bool
        ensures { result ≡ names_target bytes.now self.now }
    {
        self.targets.iter().any(|target| target.as_bytes() == bytes)
    }

    /// Whether it gives the name of these bytes commands.
    pub(crate) fn gives_commands(&self, bytes: &[u8]) -> bool
        ensures { result ≡ gives_commands bytes.now self.now }
    {
        self.names_target(bytes) && self.has_commands
    }

    /// Whether one of its targets is special.
    pub(crate) fn has_special_target(&self) -> bool
        ensures { result ≡ list_any is_special self.now.targets }
    {
        self.targets.iter().any(|target| is_special(target))
    }

    /// How often it names `.WAIT` as a prerequisite.
    pub(crate) fn wait_uses(&self) -> usize
        ensures { result ≡ length (filter is_wait self.now.prerequisites) }
    {
        self.prerequisites
            .iter()
            .filter(|name| is_wait(name))
            .count()
    }

    /// The entry without `.WAIT` among its prerequisites.
    pub(crate) fn without_waits(mut self) -> Rule
        ensures { result ≡ without_waits self }
    {
        self.prerequisites.retain(|name| !is_wait(name));
        self
    }
}
