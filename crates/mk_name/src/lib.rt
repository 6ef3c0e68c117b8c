//! What every other crate speaks of: names of files, faults, and the report of a fault.
//!
//! A [`name::Name`] is compared byte by byte. A [`fault::Fault`] says what is wrong and where, and [`report::refused_report`]
//! makes its text. Read `specs/Reported.antt` first, then `specs/Gives.antt`: the word by which contracts say that a call
//! gives a value or a fault, unless memory runs out.
#![tactic(auto)]

pub mod fault;
pub mod laws;
pub mod name;
mod order;
pub mod report;
