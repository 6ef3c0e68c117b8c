//! What makes a name.

/// What makes a name ("Target Rules", "Inference Rules", `.DEFAULT` of "Special Targets").
#[derive(Clone, Copy, Debug, PartialEq, Eq)]
pub enum Maker {
    /// A target rule with commands.
    Rule,
    /// An inference rule.
    Inferred,
    /// The commands of `.DEFAULT`.
    Default,
    /// No recipe: the name is a file that is there, a phony name, or a target without commands.
    Nothing,
}
