//! Laws of chosen chains and of neighbours. Each function's contract is a law, and its body is empty.
ghost use Rattle.mk_decide.specs.Chosen.{ChosenIsOne, ChosenIsChain};
ghost use Rattle.mk_decide.specs.Short.{NeighboursOrderAll, ShortIsRaceFree};

/// From one node to another there is one chosen chain at most.
pub fn chosen_is_one()
    ensures { ChosenIsOne }
{}

/// A chosen chain goes edge by edge.
pub fn chosen_is_chain()
    ensures { ChosenIsChain }
{}

/// Where all neighbours are in order, all nodes that clash are.
pub fn neighbours_order_all()
    ensures { NeighboursOrderAll }
{}

/// Valid jobs with a short certificate are race-free.
pub fn short_is_race_free()
    ensures { ShortIsRaceFree }
{}
