//! What is asked: from the words of the command line to a request, and the files that it reads.
//!
//! [`words::read_words`] reads the words by `clap`, and gives a [`requests::Request`] or the error of the words, with its text;
//! [`requests::other_input`] and [`requests::task_inputs`] say what is read for it besides a build, in which order. Read
//! `specs/CommandLine.antt` first, then `specs/Requests.antt`. A subcommand more is a variant of `JobQuestion` or of `TaskQuestion`, and
//! its words in `words`.
#![tactic(auto)]

pub mod inputs;
pub mod requests;
pub mod words;
