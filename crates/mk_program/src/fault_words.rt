//! What is wrong with an input, in words.
ghost use Rattle.std.specs.Prelude.{◌≡◌};
ghost use Rattle.mk_program.specs.FaultText as spec;

use mk_name::fault::Kind;

/// What is wrong, in words.
pub(crate) fn words_of(kind: Kind) -> &'static str
    ensures { result.now ≡ spec.words_of kind }
{
    match kind {
        Kind::BadName => "not a valid path",
        Kind::NoColon => "no colon in this line",
        Kind::StrayRecipe => "a command without an entry above it",
        Kind::DoubleColon => "an entry with two colons",
        Kind::BadAssignment => "not a valid assignment",
        Kind::TextTooLarge => "more than 1,048,576 bytes",
        Kind::MacroLoop => "a macro whose value needs itself",
        Kind::BadReference => "a reference that cannot be read",
        Kind::InternalMacro => "a macro that has a value only in commands",
        Kind::ExpansionTooLarge => "an expansion that is too large",
        Kind::TwoRecipes => "a target that gets commands a second time",
        Kind::MixedSpecial => "a special target beside other targets",
        Kind::DefaultPrerequisites => ".DEFAULT with prerequisites",
        Kind::NoGoal => "no goal is given, and the makefile has none",
        Kind::NoRule => "nothing makes this, and it is not listed",
        Kind::Cycle => "names that need each other in a ring",
        Kind::GraphTooLarge => "more than 20,000 names, or more than 200,000 edges",
        Kind::BadFootprint => "not a valid footprint",
        Kind::FootprintsTooLarge => "more than 1,000,000 paths in footprints",
        Kind::MissingFootprint => "a recipe without a footprint",
        Kind::WritesTarget => "a recipe that writes what belongs to another",
        Kind::TooManyPairs => "more than 1,000,000 pairs of recipes that conflict",
        Kind::BadLog => "not a valid line of a log",
        Kind::BadProof => "not a valid line of a proof",
        Kind::UnknownInclude => "an include line for a text that is not handed in",
        Kind::IncludeTooDeep => "texts that include each other too deep",
        Kind::TooManyIncludes => "more than 1,000 texts are included",
        Kind::BadTask => "not a valid task",
        Kind::TaskTwice => "a label or a file that an earlier line has",
        Kind::UnknownTask => "a label in \"after\" that no earlier line has",
        Kind::TooManyTasks => "more than 20,000 tasks, or more than 200,000 edges",
        Kind::TasksTooLarge => "more than 1,000,000 paths in tasks",
        Kind::UnusedFootprint => "a footprint whose \"target\" nothing makes",
        Kind::NotAwaited => "a file in \"needs\" whose task is not awaited",
    }
}
