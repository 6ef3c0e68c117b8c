//! Which bytes may stand in words, paths and roots.
use crate::made::{is_good, of_root};
use mk_text::root::Root;
use mk_text::spelling::{plain_path, plain_word};
use std::alloc::Global;

/// Bytes that no word may hold, though a path may hold most of them.
static SIGNS: &[u8] = b"\x01\t\x1f #$:;=\\%()*?[\"'&|\x7f";

/// What is neither a word nor a path.
static NEITHER: [&[u8]; 3] = [b"", b"a\0", b"\na"];

/// What is no root.
static NO_ROOTS: [&[u8]; 4] = [b"", b"w", b"/w\0", b"/w\n"];

/// Bytes that a word may hold.
static LETTERS: &[u8] = b"!+,-./09@AZ]^_`az{}~\x80\xff";

fn are_no_words(alloc: Global, root: &Root) -> bool {
    let mut so = true;
    for byte in SIGNS {
        so &= !is_good(plain_word(alloc, &[b'x', *byte], root))
            && is_good(plain_path(alloc, &[b'x', *byte], root));
    }
    so
}

fn are_words(alloc: Global, root: &Root) -> bool {
    let mut so = true;
    for byte in LETTERS {
        so &= is_good(plain_word(alloc, &[b'x', *byte], root));
    }
    so
}

/// Whether what has no bytes, a byte of zero or a newline is neither a word nor a path.
fn are_neither(alloc: Global, root: &Root) -> bool {
    let mut so = true;
    for text in &NEITHER {
        so &= !is_good(plain_word(alloc, text, root)) && !is_good(plain_path(alloc, text, root));
    }
    so
}

fn are_distinct(alloc: Global, root: &Root) -> bool {
    are_no_words(alloc, root) && are_words(alloc, root) && are_neither(alloc, root)
}

#[test]
fn bytes_of_words_and_paths(rt: HostRuntime) {
    assert!(rt; of_root(rt.alloc(), are_distinct));
}

fn is_root(alloc: Global, text: &[u8]) -> bool {
    match Root::read(alloc, text) {
        Ok(root) => root.text() == text,
        Err(_) => false,
    }
}

fn are_no_roots(alloc: Global) -> bool {
    let mut so = true;
    for text in &NO_ROOTS {
        so &= !is_root(alloc, text);
    }
    so
}

#[test]
fn bytes_of_roots(rt: HostRuntime) {
    assert!(rt; is_root(rt.alloc(), b"/q/..//./w/") && are_no_roots(rt.alloc()));
}
