//! Paths of texts for include lines that no list of files can hold.
use crate::made::of_root;
use mk_include::includes::Includes;
use mk_name::fault::Halt;
use mk_text::root::Root;
use std::alloc::Global;

/// The place that a fault is reported at.
fn place_of(halt: &Halt) -> u64 {
    match halt {
        Halt::Fault(fault) => fault.place(),
        Halt::Memory => u64::MAX,
    }
}

/// Where a second path is reported as bad behind one with a blank, and 0 where both are read.
fn place_reported(alloc: Global, root: &Root, path: &[u8]) -> u64 {
    match Includes::read(alloc, &[(b"a b", b"x y"), (path, b"x")], root) {
        Ok(_) => 0,
        Err(halt) => place_of(&halt),
    }
}

fn are_reported(alloc: Global, root: &Root) -> bool {
    place_reported(alloc, root, b"") == 2
        && place_reported(alloc, root, b"\n") == 2
        && place_reported(alloc, root, b"x*") == 0
}

#[test]
fn paths_of_includes(rt: HostRuntime) {
    assert!(rt; of_root(rt.alloc(), are_reported));
}
