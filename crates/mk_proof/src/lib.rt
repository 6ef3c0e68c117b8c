//! The proofs of an answer, as types that keep the shape of their texts: certificates and traces, and the texts of both.
//!
//! When a certificate or a trace is good for jobs, `mk_cert` says.
#![tactic(auto)]

pub mod certificate;
mod draft;
mod line;
mod number;
pub mod proof;
pub mod reading;
pub mod step;
mod table;
pub mod trace;
pub mod writing;
