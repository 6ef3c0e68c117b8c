//! Lines of JSON, read over the text itself.
//!
//! [`document::Document::read`] takes the bytes of a text, and gives what the keys of its object have, or nothing where it is
//! no JSON in UTF-8. What it means is what `serde_json` reads in it: read `specs/Documents.antt` first. No key and no text
//! without escapes is copied.
#![tactic(auto)]

pub mod document;
mod meaning;
pub mod members;
mod number;
pub mod reading;

pub use crate::document::Document;
pub use json::Scratch;
