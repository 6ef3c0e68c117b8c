//! The reports of answers.
//!
//! [`answer::report`] makes the text of an [`answer::BuildAnswer`]; the modules `safe`, `race`, `races`, `fixes`, `not_fixed` and
//! `missing` write one kind of report each. Read `specs/Reports.antt` first, then `specs/ReportText.antt`: what each line is.
#![tactic(auto)]

mod adding;
pub mod answer;
pub mod counts;
pub mod fixes;
pub mod missing;
mod names;
pub mod not_fixed;
pub mod race;
pub mod races;
pub mod safe;
pub mod verb;
