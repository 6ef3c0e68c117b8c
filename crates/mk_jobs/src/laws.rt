//! Laws of jobs. Each function's contract is a law, and its body is empty.
ghost use Rattle.mk_jobs.specs.Chains.{ChainIsBefore, BeforeHasChain};
ghost use Rattle.mk_jobs.specs.Reaching.{ClashIsReach};
ghost use Rattle.mk_jobs.specs.Laws.{ShapeIsValid, ChainsRise, ClashIsLive, ClashTurns};

/// Jobs of the full shape are valid.
pub fn shape_is_valid()
    ensures { ShapeIsValid }
{}

/// A chain of edges rises.
pub fn chains_rise()
    ensures { ChainsRise }
{}

/// Two nodes that clash are live nodes of the plan.
pub fn clash_is_live()
    ensures { ClashIsLive }
{}

/// If a clashes with b, b clashes with a.
pub fn clash_turns()
    ensures { ClashTurns }
{}

/// A chain that goes edge by edge leads from its first node to nodes that it is before.
pub fn chain_is_before()
    ensures { ChainIsBefore }
{}

/// Where a is before b, a chain leads from a to b edge by edge.
pub fn before_has_chain()
    ensures { BeforeHasChain }
{}

/// Two nodes clash just where one of them reaches the other: it has a path over one of the other's, and one of the two is
/// written.
pub fn clash_is_reach()
    ensures { ClashIsReach }
{}
