//! Macros that a fault leaves as they were.
use crate::made::{expands, is_good};
use mk_lines::line::Line;
use mk_lines::lines::lines;
use mk_macro::macros::Macros;
use std::alloc::Global;

/// Assignments that fail.
static FAULTY: [&str; 4] = ["A ::= $(", "A += $@", "A := $(L)", "A ::= $(A)$(A:x)"];

/// Whether all assignments can be made.
fn assign_all(alloc: Global, macros: &mut Macros, lines: &[Line<'_>]) -> bool {
    let mut so = true;
    for line in lines {
        so = so && is_good(macros.assign(alloc, line));
    }
    so
}

/// Whether the assignments of a text can be made.
fn assigns(alloc: Global, macros: &mut Macros, text: &str) -> bool {
    match lines(alloc, text.as_bytes()) {
        Ok(lines) => assign_all(alloc, macros, &lines),
        Err(_) => false,
    }
}

/// Whether each of them fails, and leaves `A`.
fn all_leave(alloc: Global, macros: &mut Macros) -> bool {
    let mut so = assigns(alloc, macros, "A ::= x\nL = $(L)");
    for text in &FAULTY {
        so &= !assigns(alloc, macros, text) && expands(alloc, macros, b"$(A)", b"x");
    }
    so
}

fn all_leave_new(alloc: Global) -> bool {
    match Macros::new(alloc, &[]) {
        Ok(mut macros) => all_leave(alloc, &mut macros),
        Err(_) => false,
    }
}

#[test]
fn faults_leave_macros(rt: HostRuntime) {
    assert!(rt; all_leave_new(rt.alloc()));
}
