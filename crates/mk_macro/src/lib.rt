//! Macros: what operands of the command line and assignments define, and what a text expands to.
//!
//! [`macros::Macros`] holds what each macro stands for; its calls read operands, do what an assignment says, and expand a
//! text. Read `specs/Macros.antt` first, then `specs/Expansion.antt`. `laws` says that each text has just one expansion.
#![tactic(auto)]

mod assignment;
mod definition;
mod expansion;
mod fault;
mod item;
pub mod laws;
mod layer;
pub mod macros;
mod open;
mod operands;
mod output;
mod recent;
mod substitution;
