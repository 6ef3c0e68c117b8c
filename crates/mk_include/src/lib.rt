//! The texts that include lines may name (POSIX.1-2024 XCU make, "Include Lines").
//!
//! [`includes::Includes`] holds them by their plain names, each cut into its lines. `words` says which of them a word of an
//! include line names, or why it names none. Read `specs/Includes.antt` first, then `specs/Words.antt`.
#![tactic(auto)]

pub mod cut;
pub mod includes;
pub mod words;
