//! The texts of proofs: what is read is written back. Texts that are no proof are cases.
use mk_proof::proof::Proof;
use mk_proof::reading::read_proof;
use mk_proof::writing::{write_certificate, write_trace};
use std::alloc::{AllocError, Global};

/// Texts of proofs, each of which is written back as the same bytes.
static PROOFS: [&str; 6] = [
    "certificate 0\n",
    "certificate 2\n1 4\n3 4\n",
    "certificate 4\n0 19999\n9 10 11\n9 10 12\n19998 19999\n",
    "trace 1 3\npath 67656e2e68\ntime 0 5\ntime 2 3\nskip 0\nskip 2\nstart 1\nstart 3\nend\n",
    "trace 0 19999\npath 00ff\ntime 0 20000\ntime 19999 0\nfinish 19999\nstart 0\nend\n",
    "trace 0 1\npath 61\nend\n",
];

/// Whether a text was made, and this one.
pub(crate) fn is_text(text: Result<Vec<u8>, AllocError>, expected: &str) -> bool {
    match text {
        Ok(text) => text.as_slice() == expected.as_bytes(),
        Err(AllocError) => false,
    }
}

fn written(alloc: Global, proof: &Proof) -> Result<Vec<u8>, AllocError> {
    match proof {
        Proof::Certificate(certificate) => write_certificate(alloc, certificate),
        Proof::Trace(trace) => write_trace(alloc, trace),
    }
}

/// Whether a text is read as a proof, and written back.
fn is_written_back(alloc: Global, text: &str) -> bool {
    match read_proof(alloc, text.as_bytes()) {
        Ok(proof) => is_text(written(alloc, &proof), text),
        Err(_) => false,
    }
}

fn are_written_back(alloc: Global) -> bool {
    let mut so = true;
    for text in &PROOFS {
        so &= is_written_back(alloc, text);
    }
    so
}

#[test]
fn texts_of_proofs(rt: HostRuntime) {
    assert!(rt; are_written_back(rt.alloc()));
}
