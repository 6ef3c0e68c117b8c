//! Laws of lists in which each name stands once.
ghost use Rattle.std.specs.Prelude.{◌≡◌, ◌∷◌, ◌++◌, [], List, false, true};
ghost use Rattle.mk_name.specs.Names.{IsDistinct, Name, firsts, has, same_name};

/// The law of the list that keeps each name where it first stands, by what stands at the end of a list:
/// nothing gives nothing; a name that stands before it leaves what is kept, and any other follows it.
pub fn firsts_by_their_end()
    ensures nothing { firsts same_name [] ≡ [] }
    ensures again { (names : List Name) (name : Name) → has same_name names name ≡ true
        → firsts same_name (names ++ name ∷ []) ≡ firsts same_name names }
    ensures first { (names : List Name) (name : Name) → has same_name names name ≡ false
        → firsts same_name (names ++ name ∷ []) ≡ firsts same_name names ++ name ∷ [] }
{}

/// The same names stand in that list, and none of them twice.
pub fn firsts_are_the_same_names()
    ensures same { (names : List Name) (name : Name)
        → has same_name (firsts same_name names) name ≡ has same_name names name }
    ensures once { (names : List Name) → IsDistinct same_name (firsts same_name names) }
{}
