//! Stages: how far a node has come.

/// How far a node has come.
#[derive(Clone, Copy, Debug, PartialEq, Eq)]
pub(crate) enum Stage {
    /// It has neither started nor been skipped.
    Waiting,
    /// It has started and not finished.
    Running,
    /// It was skipped.
    Skipped,
    /// It has finished.
    Ran,
}
