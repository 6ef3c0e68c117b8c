//! What a build is made of.
use mk_foot::footprints::Footprints;
use mk_name::fault::Fault;
use mk_text::listing::Listing;

/// The texts of a build but its listing and its footprints, its root and its operands, as they are given.
#[derive(Clone, Copy)]
pub struct Input<'a> {
    /// The folder that relative paths start from.
    pub root: &'a [u8],
    /// The operands of the command line: goals, and macros where they hold a `=`.
    pub operands: &'a [&'a [u8]],
    /// The text of the base makefile, which is empty where there is none.
    pub base: &'a [u8],
    /// The text of the makefile.
    pub makefile: &'a [u8],
    /// The texts that include lines may name, each behind its path.
    pub includes: &'a [(&'a [u8], &'a [u8])],
}

/// A build: its input, and its listing and footprints, each as what it says or its first fault. What these say below a root that is
/// refused counts for nothing.
#[derive(Drop)]
pub struct Build<'a> {
    pub input: Input<'a>,
    /// The files that are there.
    pub listing: Result<Listing, Fault>,
    /// What the recipes read and write.
    pub footprints: Result<Footprints, Fault>,
}
