//! Laws of expansion.
ghost use Rattle.mk_macro.specs.Laws.{EachTextExpands, ExpansionIsUnique, ItemsComeToOne};

/// A law: under the same macros a text has just one expansion, a text or a fault; and the items of a
/// text, inside the same values and behind the same count of references, come to no two outcomes.
pub fn expansion_is_unique()
    ensures some { EachTextExpands }
    ensures text { ExpansionIsUnique }
    ensures items { ItemsComeToOne }
{}
