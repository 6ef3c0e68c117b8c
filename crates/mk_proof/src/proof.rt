//! Proofs of an answer.

use crate::certificate::Certificate;
use crate::trace::Trace;

/// What proves an answer: a certificate that no schedule matters, or a trace to two nodes that clash while both run.
#[derive(Debug, Drop)]
pub enum Proof {
    Certificate(Certificate),
    Trace(Trace),
}
