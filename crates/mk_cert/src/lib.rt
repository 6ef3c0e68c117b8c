//! Certificates and traces: when they are good for jobs. Their types and texts stand in `mk_proof`.
//!
//! [`accepting::accept`] says whether jobs accept a certificate, and [`accepting::accept_trace`] whether they accept a trace. Read
//! `specs/Certificates.antt` first.
#![tactic(auto)]

pub mod accepting;
mod clash;
pub mod edges;
pub mod laws;
mod pairs;
pub mod search;
mod stage;
mod standing;
mod surely;
mod times;
mod walk;
