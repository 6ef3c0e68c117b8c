//! The logical lines of a text, by their places and pieces.
use mk_lines::line::{Line, LineKind, Operator};
use mk_lines::lines::lines;
use std::alloc::Global;

/// A line of each kind, two of them continued.
static TEXT: &[u8] = b"A\\\n=\\\n  b\na\\\n: b\\\n;c\n\td\n-include e";

/// The kinds of the lines, in their order.
static KINDS: [LineKind; 4] = [
    LineKind::Assign {
        name_start: 0,
        name_end: 1,
        operator: Operator::Delayed,
        value_start: 4,
    },
    LineKind::Entry {
        colon: 2,
        semicolon: Some(6),
    },
    LineKind::Recipe,
    LineKind::Include {
        hyphen: true,
        rest: 8,
    },
];

/// Whether a line of this kind begins at this one, with this text.
fn is_line(line: &Line<'_>, first: u64, kind: LineKind, text: &[u8]) -> bool {
    line.first_line() == first && line.kind() == kind && line.text() == text
}

fn has_three_pieces(pieces: &[&[u8]]) -> bool {
    match pieces {
        [first, second, third] => {
            *first == b"a".as_slice() && *second == b": b".as_slice() && *third == b";c".as_slice()
        }
        _ => false,
    }
}

/// Whether these are the four lines.
fn are_four(lines: &[Line<'_>]) -> bool {
    match lines {
        [first, second, third, fourth] => {
            is_line(first, 1, KINDS[0], b"A = b")
                && is_line(second, 4, KINDS[1], b"a : b ;c")
                && has_three_pieces(second.pieces())
                && is_line(third, 7, KINDS[2], b"d")
                && is_line(fourth, 8, KINDS[3], b"-include e")
        }
        _ => false,
    }
}

fn are_read(alloc: Global) -> bool {
    match lines(alloc, TEXT) {
        Ok(lines) => are_four(&lines),
        Err(_) => false,
    }
}

#[test]
fn lines_of_a_text(rt: HostRuntime) {
    assert!(rt; are_read(rt.alloc()));
}
