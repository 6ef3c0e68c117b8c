//! The rules of a build: what the lines of its makefiles say of each name.
//!
//! [`reading::read_rules`] takes the lines of both makefiles and gives the [`rulebook::Rulebook`], which answers what rules
//! and special targets say of a name. Read `specs/Book.antt` first, then `specs/Reading.antt`. `laws` says that makefiles say
//! one thing.
#![tactic(auto)]

mod before;
mod entries;
mod entry;
mod hasher;
mod index;
mod inference;
pub mod laws;
mod lines;
mod names;
mod placed;
pub mod reading;
pub mod rule;
pub mod rulebook;
mod special;
mod words;
