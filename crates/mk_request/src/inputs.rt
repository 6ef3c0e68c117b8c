//! The inputs of a request: what is read, and the paths of the files.

/// An input of a build, which is read from a file.
#[derive(Clone, Copy, Debug, PartialEq, Eq)]
pub enum InputFile {
    /// The file of includes, or one that it names.
    Include,
    Base,
    Makefile,
    Listing,
    Footprints,
    Proof,
    Log,
    Tasks,
}

/// An input, and the path of its file.
#[derive(Clone, Copy)]
pub struct InputPath<'a> {
    pub input: InputFile,
    pub path: &'a str,
}
