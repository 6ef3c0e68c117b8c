//! What is reported of a fault.
use mk_name::fault::Halt;
use mk_name::report::refused_report;
use std::alloc::{AllocError, Global};

/// Whether this is the report of a fault.
pub(crate) fn has_report(alloc: Global, halt: &Halt, report: &str) -> bool {
    match halt {
        Halt::Fault(fault) => is_text(refused_report(alloc, fault), report),
        Halt::Memory => false,
    }
}

/// Whether a text was made, and this one.
fn is_text(text: Result<Vec<u8>, AllocError>, expected: &str) -> bool {
    match text {
        Ok(text) => text.as_slice() == expected.as_bytes(),
        Err(_) => false,
    }
}
