//! Faults: what is wrong with an input, and where.
ghost use Rattle.std.specs.Prelude.{◌≡◌, [], ◌∷◌, IfOk};
ghost use Rattle.mk_name.specs.Gives.{halt_at};
ghost use Rattle.mk_name.specs.declared.fault.Halt.TheVariants.{Memory};

use crate::name::Name;
use std::alloc::{AllocError, AllocFailed, Global};
use std::marker::Model;

/// The text, or the stage, that a fault is in.
#[derive(Debug, Drop)]
pub enum Source {
    /// The root (place 0) or an operand of the command line (its place, from 1).
    Settings,
    Listing,
    Base,
    Makefile,
    Graph,
    Footprints,
    Jobs,
    Log,
    Proof,
    /// The list of texts that include lines may name.
    Includes,
    /// The text of tasks.
    Tasks,
    /// The text that an include line names.
    Include(Name),
}

impl Source {
    /// An equal source. The only error is out of memory.
    pub fn copy(&self, alloc: Global) -> Result<Source, AllocError>
        ensures { IfOk result (λ source. source ≡ self.now) }
    {
        Ok(match self {
            Source::Settings => Source::Settings,
            Source::Listing => Source::Listing,
            Source::Base => Source::Base,
            Source::Makefile => Source::Makefile,
            Source::Graph => Source::Graph,
            Source::Footprints => Source::Footprints,
            Source::Jobs => Source::Jobs,
            Source::Log => Source::Log,
            Source::Proof => Source::Proof,
            Source::Includes => Source::Includes,
            Source::Tasks => Source::Tasks,
            Source::Include(name) => Source::Include(name.copy(alloc)?),
        })
    }
}

/// What is wrong.
#[derive(Clone, Copy, Debug, PartialEq, Eq)]
pub enum Kind {
    BadName,
    NoColon,
    StrayRecipe,
    DoubleColon,
    BadAssignment,
    TextTooLarge,
    MacroLoop,
    BadReference,
    InternalMacro,
    ExpansionTooLarge,
    TwoRecipes,
    MixedSpecial,
    DefaultPrerequisites,
    NoGoal,
    NoRule,
    Cycle,
    GraphTooLarge,
    BadFootprint,
    FootprintsTooLarge,
    MissingFootprint,
    WritesTarget,
    TooManyPairs,
    BadLog,
    BadProof,
    UnknownInclude,
    IncludeTooDeep,
    TooManyIncludes,
    BadTask,
    TaskTwice,
    UnknownTask,
    TooManyTasks,
    TasksTooLarge,
    UnusedFootprint,
    NotAwaited,
}

impl Kind {
    ghost use Rattle.mk_name.specs.Shown.{number_of, word_of};

    /// The number by which reports show it.
    pub fn number(self) -> u8
        ensures { result ≡ number_of self }
    {
        match self {
            Kind::BadName => 1,
            Kind::NoColon => 2,
            Kind::StrayRecipe => 3,
            Kind::DoubleColon => 4,
            Kind::BadAssignment => 5,
            Kind::TextTooLarge => 7,
            Kind::MacroLoop => 8,
            Kind::BadReference => 9,
            Kind::InternalMacro => 10,
            Kind::ExpansionTooLarge => 11,
            Kind::TwoRecipes => 12,
            Kind::MixedSpecial => 13,
            Kind::DefaultPrerequisites => 14,
            Kind::NoGoal => 15,
            Kind::NoRule => 16,
            Kind::Cycle => 17,
            Kind::GraphTooLarge => 18,
            Kind::BadFootprint => 19,
            Kind::FootprintsTooLarge => 20,
            Kind::MissingFootprint => 21,
            Kind::WritesTarget => 22,
            Kind::TooManyPairs => 23,
            Kind::BadLog => 24,
            Kind::BadProof => 25,
            Kind::UnknownInclude => 26,
            Kind::IncludeTooDeep => 27,
            Kind::TooManyIncludes => 28,
            Kind::BadTask => 29,
            Kind::TaskTwice => 30,
            Kind::UnknownTask => 31,
            Kind::TooManyTasks => 32,
            Kind::TasksTooLarge => 33,
            Kind::UnusedFootprint => 34,
            Kind::NotAwaited => 35,
        }
    }

    /// The word by which reports show it.
    pub fn word(self) -> &'static str
        ensures { result.now ≡ word_of self }
    {
        match self {
            Kind::BadName => "BadName",
            Kind::NoColon => "NoColon",
            Kind::StrayRecipe => "StrayRecipe",
            Kind::DoubleColon => "DoubleColon",
            Kind::BadAssignment => "BadAssignment",
            Kind::TextTooLarge => "TextTooLarge",
            Kind::MacroLoop => "MacroLoop",
            Kind::BadReference => "BadReference",
            Kind::InternalMacro => "InternalMacro",
            Kind::ExpansionTooLarge => "ExpansionTooLarge",
            Kind::TwoRecipes => "TwoRecipes",
            Kind::MixedSpecial => "MixedSpecial",
            Kind::DefaultPrerequisites => "DefaultPrerequisites",
            Kind::NoGoal => "NoGoal",
            Kind::NoRule => "NoRule",
            Kind::Cycle => "Cycle",
            Kind::GraphTooLarge => "GraphTooLarge",
            Kind::BadFootprint => "BadFootprint",
            Kind::FootprintsTooLarge => "FootprintsTooLarge",
            Kind::MissingFootprint => "MissingFootprint",
            Kind::WritesTarget => "WritesTarget",
            Kind::TooManyPairs => "TooManyPairs",
            Kind::BadLog => "BadLog",
            Kind::BadProof => "BadProof",
            Kind::UnknownInclude => "UnknownInclude",
            Kind::IncludeTooDeep => "IncludeTooDeep",
            Kind::TooManyIncludes => "TooManyIncludes",
            Kind::BadTask => "BadTask",
            Kind::TaskTwice => "TaskTwice",
            Kind::UnknownTask => "UnknownTask",
            Kind::TooManyTasks => "TooManyTasks",
            Kind::TasksTooLarge => "TasksTooLarge",
            Kind::UnusedFootprint => "UnusedFootprint",
            Kind::NotAwaited => "NotAwaited",
        }
    }
}

/// What is wrong with an input, and where: a kind, a source, a place in it and the names that it
/// reports.
/// The place is a line from 1, an operand from 1 or a node's number, and 0 where there is none.
#[derive(Debug, Drop)]
pub struct Fault {
    kind: Kind,
    source: Source,
    place: u64,
    names: Vec<Name>,
}

impl Model for Fault {
    ghost use Rattle.mk_name.specs.Reported.{Reported};

    ghost Value = { Reported };

    ghost view = { λ a. record { kind = a.kind; source = a.source; place = a.place; names = a.names.items } };
}

impl Fault {
    /// The fault of these parts.
    pub fn new(kind: Kind, source: Source, place: u64, names: Vec<Name>) -> Fault
        ensures { result ≡ record { kind = kind; source = source; place = place; names = names.items } }
    {
        Fault {
            kind,
            source,
            place,
            names,
        }
    }

    /// The fault of this kind at this place, without names.
    pub fn unnamed(alloc: Global, kind: Kind, source: Source, place: u64) -> Fault
        ensures { result ≡ record { kind = kind; source = source; place = place; names = [] } }
    {
        Fault::new(kind, source, place, Vec::new(alloc))
    }

    /// The fault of this kind at this place, which reports one name. The only error is out of memory.
    pub fn naming(
        alloc: Global,
        kind: Kind,
        source: Source,
        place: u64,
        name: Name,
    ) -> Result<Fault, AllocError>
        ensures { IfOk result (λ fault. fault
            ≡ record { kind = kind; source = source; place = place; names = name ∷ [] }) }
    {
        Ok(Fault::new(kind, source, place, vec![in alloc; name]?))
    }

    /// The fault of a text that spells no name: `BadName` at place 0, which reports the text.
    /// The only error is out of memory.
    pub fn bad_name(alloc: Global, source: Source, text: &[u8]) -> Result<Fault, AllocError>
        ensures kind { IfOk result (λ fault. fault.kind ≡ Kind.BadName) }
        ensures source { IfOk result (λ fault. fault.source ≡ source) }
        ensures place { IfOk result (λ fault. fault.place ≡ 0) }
        ensures names { IfOk result (λ fault. fault.names ≡ text.now ∷ []) }
    {
        let name = Name::from_bytes(Vec::from_slice(alloc, text)?);
        Fault::naming(alloc, Kind::BadName, source, 0, name)
    }

    /// What is wrong.
    pub fn kind(&self) -> Kind
        ensures { result ≡ self.now.kind }
    {
        self.kind
    }

    /// The text, or the stage, that it is in.
    pub fn source(&self) -> &Source
        ensures { result.now ≡ self.now.source }
    {
        &self.source
    }

    /// The line, operand or node that it is at, and 0 where there is none.
    pub fn place(&self) -> u64
        ensures { result ≡ self.now.place }
    {
        self.place
    }

    /// The names that it reports.
    pub fn names(&self) -> &[Name]
        ensures { result.now ≡ self.now.names }
    {
        self.names.as_slice()
    }

    /// The same fault in another source, at another place.
    pub fn at(self, source: Source, place: u64) -> Fault
        ensures { result ≡ record self { source = source; place = place } }
    {
        Fault {
            kind: self.kind,
            source,
            place,
            names: self.names,
        }
    }
}

/// Why a call has no value: memory ran out, or the input has this fault.
#[derive(Debug, Drop)]
pub enum Halt {
    Memory,
    Fault(Fault),
}

impl Halt {
    /// The same halt, where a fault is reported in this source, at this place.
    pub fn at(self, source: Source, place: u64) -> Halt
        ensures { result ≡ halt_at source place self }
    {
        match self {
            Halt::Memory => Halt::Memory,
            Halt::Fault(fault) => Halt::Fault(fault.at(source, place)),
        }
    }
}

impl From<AllocError> for Halt {
    ghost from_gives = { λ _ halt. halt ≡ Memory };

    fn from(_error: AllocError) -> Halt {
        Halt::Memory
    }
}

impl<T: Drop> From<AllocFailed<T>> for Halt {
    ghost from_gives = { λ _ halt. halt ≡ Memory };

    fn from(_error: AllocFailed<T>) -> Halt {
        Halt::Memory
    }
}
