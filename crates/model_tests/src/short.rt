//! Short certificates: those of jobs in which recipes stand in a row, and what is taken for one.
use crate::making::{Made, jobs_of};
use crate::small;
use crate::small::hold;
use crate::texts::is_text;
use crate::walks::written;
use mk_decide::short::{accept_short, decide_short};
use mk_jobs::jobs::Jobs;
use mk_proof::proof::Proof;
use mk_proof::reading::read_proof;
use std::alloc::Global;

/// Whether the proof of jobs, with a certificate that is short, is this text.
fn is_proof(alloc: Global, made: &[Made<'_>], proof: &str) -> bool {
    hold(jobs_of(alloc, made), |jobs| {
        match decide_short(alloc, jobs) {
            Ok(verdict) => is_text(written(alloc, &verdict), proof),
            Err(_) => false,
        }
    })
}

/// Whether a text is taken as a short certificate of jobs.
fn is_taken(alloc: Global, made: &[Made<'_>], text: &str) -> bool {
    hold(jobs_of(alloc, made), |jobs| is_taken_of(alloc, jobs, text))
}

fn is_taken_of(alloc: Global, jobs: &Jobs, text: &str) -> bool {
    match read_proof(alloc, text.as_bytes()) {
        Ok(Proof::Certificate(certificate)) => accept_short(alloc, jobs, &certificate) == Ok(true),
        Ok(Proof::Trace(_)) | Err(_) => false,
    }
}

fn are_short(alloc: Global) -> bool {
    is_proof(alloc, &small::LOG_IN_LINE, "certificate 2\n1 2\n2 3\n")
        && is_proof(alloc, &small::TWO_OBJECTS, "certificate 2\n1 4\n3 4\n")
        && is_proof(alloc, &small::IDLE_CONFIGURE, "certificate 0\n")
}

fn are_taken(alloc: Global) -> bool {
    is_taken(alloc, &small::LOG_IN_LINE, "certificate 2\n1 2\n2 3\n")
        && is_taken(
            alloc,
            &small::LOG_IN_LINE,
            "certificate 3\n1 2\n1 2 3\n2 3\n",
        )
        && !is_taken(alloc, &small::LOG_IN_LINE, "certificate 1\n1 2\n")
        && !is_taken(alloc, &small::LOG_IN_LINE, "certificate 2\n1 3\n2 3\n")
        && !is_taken(alloc, &small::FILE_IN_TREE, "certificate 0\n")
}

#[test]
fn neighbours_in_a_row(rt: HostRuntime) {
    assert!(rt; are_short(rt.alloc()));
}

#[test]
fn what_is_taken(rt: HostRuntime) {
    assert!(rt; are_taken(rt.alloc()));
}
