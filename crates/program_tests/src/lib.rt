//! Tests of the program by [`mk_program::race_words`], over files and outputs in memory, where no folder shows what they say; and of
//! the jobs that texts of tasks mean. They stand in a crate of their own, so that the program is not proved a second time for its
//! tests. What the program answers is shown by cases.
//!
//! [`shelf::Shelf`] is an opener that states what its files hold, and [`outcomes::run`] a run over it whose contract
//! says what comes out: so the premises of `race_words` are met together by something that runs.
#![tactic(auto)]

#[cfg(test)]
mod ended;
#[cfg(test)]
mod failures;
#[cfg(test)]
mod includes;
pub mod outcomes;
#[cfg(test)]
mod reporting;
pub mod shelf;
#[cfg(test)]
mod tasks;
