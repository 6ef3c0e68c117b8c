//! Laws of certificates and traces. Each function's contract is a law, and its body is empty.
ghost use Rattle.mk_cert.specs.Laws.{CertificateIsRaceFree, CertificateIsDeterminate, SmallerFirst};
ghost use Rattle.mk_cert.specs.Laws.{SurelyFresh, SureTraceHolds, RaceTraceIsSure, RaceTraceHolds, StepsAreRun, StoreFits, HoldsForARun, OverlapsClash, TraceRefutes, StepMoves};

/// Jobs with a certificate are race-free.
pub fn certificate_is_race_free()
    ensures { CertificateIsRaceFree }
{}

/// Valid jobs with a certificate are determinate.
pub fn certificate_is_determinate()
    ensures { CertificateIsDeterminate }
{}

/// Of two nodes that clash the smaller one stands at the beginning of the chain between them.
pub fn smaller_first()
    ensures { SmallerFirst }
{}

/// A node that is surely fresh by the times of the opening is not stale before it starts.
pub fn surely_fresh()
    ensures { SurelyFresh }
{}

/// A trace that passes the test holds.
pub fn sure_trace_holds()
    ensures { SureTraceHolds }
{}

/// The trace of two nodes that clash, of which neither is before the other, passes the test.
pub fn race_trace_is_sure()
    ensures { RaceTraceIsSure }
{}

/// So it holds.
pub fn race_trace_holds()
    ensures { RaceTraceHolds }
{}

/// From a store that fits, the steps of a trace that holds are a run, and both nodes run at its end.
pub fn steps_are_run()
    ensures { StepsAreRun }
{}

/// For each list of times there is a store that fits.
pub fn store_fits()
    ensures { StoreFits }
{}

/// So no trace holds for lack of a run: its steps are one from some store, and both nodes run at its end.
pub fn holds_for_a_run()
    ensures { HoldsForARun }
{}

/// Two nodes clash on each overlap of their paths.
pub fn overlaps_clash()
    ensures { OverlapsClash }
{}

/// Jobs of which a trace holds are not race-free.
pub fn trace_refutes()
    ensures { TraceRefutes }
{}

/// The number of running nodes goes up by one at a start that passes and down by one at a finish.
pub fn step_moves()
    ensures { StepMoves }
{}
