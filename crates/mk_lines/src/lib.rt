//! The logical lines of a makefile: blocks of physical lines, what each one is, and its parts.
//!
//! [`lines::lines`] cuts a makefile into them. Read `specs/LogicalLines.antt` first.
#![tactic(auto)]

mod blocks;
pub mod line;
pub mod lines;
pub mod parts;
mod references;
mod sort;
mod words;
