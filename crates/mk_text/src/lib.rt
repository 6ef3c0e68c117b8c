//! What stands in texts: physical lines, whole or in pieces, the plain spelling of names, the listing.
//!
//! `lexical` cuts texts, [`line_feed::LineFeed`] reads lines in pieces, `spelling` gives plain names below a [`root::Root`], and
//! [`listing::Listing`] holds the files that exist, read whole or in pieces by `list_reader`. Read `specs/Spelling.antt` first.
#![tactic(auto)]

mod components;
pub mod lexical;
mod limits;
pub mod line_feed;
pub mod line_sink;
pub mod list_reader;
pub mod listing;
pub mod root;
pub mod spelling;
