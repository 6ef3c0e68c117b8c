//! Laws of fixes. The contract of each function is a law, and its body is empty.
ghost use Rattle.mk_fix.specs.Laws.{BeforeGrows, CleanRunsStay, ClashStays, DirectIsFix, FixIsDeterminate, FixIsOne, FixIsWeakest, LiveStays, MustIsBefore, NothingToFix, ShapeStays};

/// Added edges keep all order that there is.
pub fn before_grows()
    ensures { BeforeGrows }
{}

/// Edges to live nodes change no node's liveness.
pub fn live_stays()
    ensures { LiveStays }
{}

/// Edges to live nodes change no conflict.
pub fn clash_stays()
    ensures { ClashStays }
{}

/// Well-formed jobs stay well-formed, up to the limit of edges.
pub fn shape_stays()
    ensures { ShapeStays }
{}

/// A fix makes jobs determinate, however many edges it has.
pub fn fix_is_determinate()
    ensures { FixIsDeterminate }
{}

/// The fix is empty just where the jobs are race-free.
pub fn nothing_to_fix()
    ensures { NothingToFix }
{}

/// The fix is the weakest: other edges that fix the jobs put in order all that it does.
pub fn fix_is_weakest()
    ensures { FixIsWeakest }
{}

/// The fix is the only one.
pub fn fix_is_one()
    ensures { FixIsOne }
{}

/// The direct races, those without a way around, are a fix.
pub fn direct_is_fix()
    ensures { DirectIsFix }
{}

/// What must be in order is what is in order where each conflict is an edge.
pub fn must_is_before()
    ensures { MustIsBefore }
{}

/// On a clean tree each run with added edges is a run without them.
pub fn clean_runs_stay()
    ensures { CleanRunsStay }
{}
