//! Laws of the graph's definitions. Each function's contract is a law, and its body is empty.
ghost use Rattle.mk_graph.specs.Once.{PlannedOnce};
ghost use Rattle.mk_graph.specs.SuffixRule.{SuffixIsRule};

/// The suffix of a name is what the rule calls so: from the last period of the last component on, where something stands
/// before that period there ("Inference Rules", profile).
pub fn suffix_is_rule()
    ensures { SuffixIsRule }
{}

/// The goals of a book and a listing lead to one plan, or to one fault: any two answers are equal, except that of several
/// cycles either may be reported.
pub fn plans_are_made_once()
    ensures { PlannedOnce }
{}
