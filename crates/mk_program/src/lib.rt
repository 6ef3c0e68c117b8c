//! The program `race` without its `main`: from the words of the command line to what is written, and how it ends.
//!
//! [`race_words`] is the program: it reads its words, opens and reads files through an opener of `mk_files`, and writes one text. Read
//! its contract first, then `specs/Answers.antt`. What the words ask for is in `mk_request`. A subcommand more is a variant of its
//! `JobQuestion`, with a module of its own, and a line in `jobs::reply_to`.
#![tactic(auto)]

mod answers;
mod change_lines;
mod checking;
mod fault_line;
mod fault_words;
mod fixing;
mod jobs;
mod listing;
mod missing;
mod noting;
mod order_lines;
mod ordering;
mod outcome_lines;
mod plan_lines;
mod posix_base;
mod replaying;
mod running;
mod serialising;
mod statuses;
mod tasks;
mod verifying;

pub use running::{fail, race_words};
pub use statuses::Status;
