//! Tests of what is said of jobs where no command shows it, by public calls: the order of nodes by rows and by walks, the least
//! chain, the least race alone, decisions by walks, the fix of jobs without a makefile, what jobs do not declare, and the texts of
//! certificates and traces, and short certificates. What the program decides, accepts and prints is shown by cases.
//!
//! The jobs are made of nodes and paths, and not of texts: `making` makes them where they are well-formed; `nodes` and `rows` look whether
//! they are.
#![tactic(auto)]

#[cfg(test)]
mod chains;
#[cfg(test)]
mod fixes;
pub mod making;
#[cfg(test)]
mod missing;
mod nodes;
#[cfg(test)]
mod rises;
mod rows;
#[cfg(test)]
mod short;
#[cfg(test)]
mod small;
#[cfg(test)]
mod texts;
#[cfg(test)]
mod walks;
#[cfg(test)]
mod words;
