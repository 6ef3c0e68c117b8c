//! A law of reading footprints. Its function's contract is the law, and its body is empty.
ghost use Rattle.mk_foot.specs.Once.{ReadOnce};

/// A text of footprints has one answer below a root: the same footprints, entry by entry, or the same fault.
pub fn footprints_are_read_once()
    ensures { ReadOnce }
{}
