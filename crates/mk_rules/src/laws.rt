//! A law of reading makefiles. Its function's contract is the law, and its body is empty.
ghost use Rattle.mk_rules.specs.Once.{SayOnce};

/// The lines of makefiles have one answer, with the texts for their include lines and the macros before them: the same
/// book or the same fault, and the same macros behind them.
pub fn makefiles_say_once()
    ensures { SayOnce }
{}
