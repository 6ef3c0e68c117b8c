//! A worked case. The function's contract is the case, computed from the definitions, and its body is empty.
ghost use Rattle.mk_due.specs.RunAgain.{RunAgain};

/// A task whose file is newer than what it needs is at rest; behind a newer source it is due, and runs again.
pub fn runs_again()
    ensures { RunAgain }
{}
