//! A law of logs. Its function's contract is the law, and its body is empty.
ghost use Rattle.mk_log.specs.Once.{ReadOnce};

/// A text has one answer for some jobs and a root: the same log, files and events, or the same fault.
pub fn logs_are_read_once()
    ensures { ReadOnce }
{}
