//! Worked cases. Each function's contract is a case, computed from the definitions, and its body is empty.
ghost use Rattle.mk_sched.specs.MissingHeader.{BothOrders, MissingHeaderRaces, HeaderNamedIsSafe};
ghost use Rattle.mk_sched.specs.HeaderNamedRuns.{HeaderNamedRuns};
ghost use Rattle.mk_sched.specs.OneRunCases.{OneRunIsEnough, FoldersAreNoLooks, RacesLeave};
ghost use Rattle.mk_sched.specs.SmallCases.{EqualTimes, InterleavedInOrder};

/// A makefile forgets a header: both orders are complete runs, and they end with different bytes.
pub fn both_orders()
    ensures { BothOrders }
{}

/// So those jobs are not determinate, and two of them clash unordered.
pub fn missing_header_races()
    ensures { MissingHeaderRaces }
{}

/// With the header named the jobs are valid, race-free and determinate.
pub fn header_named_is_safe()
    ensures { HeaderNamedIsSafe }
{}

/// Two different runs of these jobs leave the same files, and one of them is put in serial order.
pub fn header_named_runs()
    ensures { HeaderNamedRuns }
{}

/// One run and another schedule meet each premise of the headline for records.
pub fn one_run_is_enough()
    ensures { OneRunIsEnough }
{}

/// A recipe that goes by what is in a folder does not agree with itself, and leaves its footprint.
pub fn folders_are_no_looks()
    ensures { FoldersAreNoLooks }
{}

/// Where jobs race, a recipe that agrees may leave its footprint.
pub fn races_leave()
    ensures { RacesLeave }
{}

/// A target as old as its prerequisite is stale where equal times count, and not otherwise.
pub fn equal_times()
    ensures { EqualTimes }
{}

/// A parallel run, put in order node after node.
pub fn interleaved_in_order()
    ensures { InterleavedInOrder }
{}
