//! How runs over files in memory end.
use crate::outcomes::run;
use crate::shelf::{Book, Shelf};
use mk_program::Status;
use std::alloc::Global;

/// Whether a run on these words, over these files, ends with this status, this output and this on standard error.
pub(crate) fn ends(
    alloc: Global,
    words: &[&str],
    books: &[Book<'_>],
    status: Status,
    out: &[u8],
    err: &[u8],
) -> bool {
    let ended = run(alloc, words, Shelf { books });
    ended.status == status && ended.out.as_slice() == out && ended.err.as_slice() == err
}
