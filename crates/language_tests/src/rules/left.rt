//! What is left of the macros behind a makefile, also where it has a fault.
use crate::made::{expands, is_good, of_root};
use mk_include::includes::Includes;
use mk_lines::line::Line;
use mk_lines::lines::lines;
use mk_macro::macros::Macros;
use mk_rules::reading::read_rules;
use mk_text::root::Root;
use std::alloc::{AllocError, Global};

/// A makefile, the texts `a` and `b` that its include lines may name, and what `$(A)-$(B)` stands for behind it.
type Case = (&'static str, &'static str, &'static str, &'static str);

/// Makefiles that include nothing, or whose fault is reported behind all lines.
static ALONE: [Case; 7] = [
    ("A = x\nB ::= $@\nA = y", "", "", "x-"),
    ("A = x\na%: b\nA = y", "", "", "x-"),
    ("A = x\na: $(\nA = y", "", "", "x-"),
    ("A = x\n.DEFAULT: b\nA = y", "", "", "x-"),
    ("a: ; x\nA = x\na: ; y\nA = y", "", "", "y-"),
    ("x: ; c\ninclude a", "x: ; d\nA = y", "", "y-"),
    ("A = x\na: b\nA = y", "", "", "y-"),
];

/// Makefiles that include texts. A word's own fault takes back what the texts of earlier words of its line assigned, and a
/// fault inside a text what its own line did, and no more.
static INCLUDING: [Case; 10] = [
    ("A = x\ninclude a", "A += y\nB = z", "", "x y-z"),
    ("A = x\ninclude a z", "A += y\nB = z", "", "x-"),
    (
        "A = x\ninclude a z",
        "A = y\ninclude b b\nA = z",
        "A += v\nB = w",
        "x-",
    ),
    ("B ::= x\ninclude a a%", "B = $(A)\nA = y\nB += z", "", "-x"),
    ("A = x\ninclude a b", "A = y", "B = z\nx y", "y-"),
    ("A = x\ninclude a b", "A = y", "B = z\nx: $@", "y-z"),
    (
        "A = x\ninclude a",
        "A = y\ninclude b z\nA = z",
        "A = v\nB = w",
        "y-",
    ),
    ("A = x\ninclude a $@", "A = y", "", "x-"),
    ("A = x\ninclude z a", "A = y", "", "x-"),
    ("A = x\n-include z a\ninclude z", "A = y", "", "y-"),
];

/// Whether a makefile of these lines leaves this, with these texts to include. What else is read of it is let go.
fn leave(
    alloc: Global,
    root: &Root,
    lines: &[Line<'_>],
    texts: &Includes<'_>,
    macros: &mut Macros,
    want: &str,
) -> bool {
    let _good = is_good(read_rules(alloc, &[], lines, texts, macros, root));
    expands(alloc, macros, b"$(A)-$(B)", want.as_bytes())
}

/// Whether a makefile leaves this in new macros.
fn leave_in_new(
    alloc: Global,
    root: &Root,
    lines: &[Line<'_>],
    texts: &Includes<'_>,
    want: &str,
) -> bool {
    match Macros::new(alloc, &[]) {
        Ok(mut macros) => leave(alloc, root, lines, texts, &mut macros, want),
        Err(_) => false,
    }
}

/// Whether a makefile leaves this, with these texts to include.
fn leaves_with(
    alloc: Global,
    root: &Root,
    makefile: &str,
    texts: &Includes<'_>,
    want: &str,
) -> bool {
    match lines(alloc, makefile.as_bytes()) {
        Ok(lines) => leave_in_new(alloc, root, &lines, texts, want),
        Err(_) => false,
    }
}

/// Whether a makefile leaves this, with the texts `a` and `b` to include.
fn leaves(alloc: Global, root: &Root, makefile: &str, a: &str, b: &str, want: &str) -> bool {
    match Includes::read(alloc, &[(b"a", a.as_bytes()), (b"b", b.as_bytes())], root) {
        Ok(texts) => leaves_with(alloc, root, makefile, &texts, want),
        Err(_) => false,
    }
}

fn all_leave(alloc: Global, root: &Root, cases: &[Case]) -> bool {
    let mut so = true;
    for (makefile, a, b, want) in cases {
        so &= leaves(alloc, root, makefile, a, b, want);
    }
    so
}

/// As many include lines of two words as leave room for one text more, and then a line of two.
fn many_lines(alloc: Global) -> Result<String, AllocError> {
    let mut makefile = String::new(alloc);
    for _ in 0..999 {
        makefile.push_str("-include a z\n")?;
    }
    makefile.push_str("A = v\n-include z b a")?;
    Ok(makefile)
}

/// Whether one text too many takes back what the one before it on its line assigned.
fn too_many_leave(alloc: Global, root: &Root) -> bool {
    match many_lines(alloc) {
        Ok(makefile) => leaves(alloc, root, makefile.as_str(), "A = w", "A = y", "v-"),
        Err(AllocError) => false,
    }
}

fn are_left(alloc: Global, root: &Root) -> bool {
    all_leave(alloc, root, &ALONE)
        && all_leave(alloc, root, &INCLUDING)
        && too_many_leave(alloc, root)
}

#[test]
fn macros_that_are_left(rt: HostRuntime) {
    assert!(rt; of_root(rt.alloc(), are_left));
}
