//! Examples of the definition of places, checked by computation. Nothing rests on this module.

ghost use Rattle.std.specs.Prelude.{◌≡◌, [], ◌∷◌, Some, None};
ghost use Rattle.io_workers.specs.Places.{changed_for, due, fresh, linked, lost};

/// Two places that wait 5 seconds: the lowest that is free is due; one whose connection ended at moment 100 is due at
/// 5,100, and not before, and then links its next number; one that couldn't be linked links the same number again.
pub fn places_are_due_in_turn()
    ensures first { due 0 (fresh 1 (5000 ∷ 5000 ∷ [])) ≡ Some 1 }
    ensures second { due 0 (changed_for 1 linked (fresh 1 (5000 ∷ 5000 ∷ []))) ≡ Some 2 }
    ensures none { due 9999999 (changed_for 2 linked (changed_for 1 linked (fresh 1 (5000 ∷ 5000 ∷ [])))) ≡ None }
    ensures before { due 5099 (changed_for 1 (lost 1 100) (changed_for 1 linked (fresh 1 (5000 ∷ [])))) ≡ None }
    ensures then { due 5100 (changed_for 1 (lost 1 100) (changed_for 1 linked (fresh 1 (5000 ∷ [])))) ≡ Some 2 }
    ensures next { due 5100 (changed_for 2 (lost 2 100) (changed_for 2 linked (changed_for 1 linked (fresh 1 (5000 ∷ 5000 ∷ []))))) ≡ Some 4 }
    ensures again { due 5100 (changed_for 1 (lost 1 100) (fresh 1 (5000 ∷ []))) ≡ Some 1 }
    ensures meanwhile { due 5099 (changed_for 1 (lost 2 100) (fresh 1 (5000 ∷ 5000 ∷ []))) ≡ Some 2 }
{}

/// A place whose next number would be above 4,294,967,295 is never due.
pub fn numbers_end()
    ensures last { due 0 (fresh 4294967295 (5000 ∷ [])) ≡ Some 4294967295 }
    ensures beyond { due 99999999 (fresh 4294967296 (5000 ∷ [])) ≡ None }
    ensures after { due 99999999 (changed_for 4294967295 (lost 1 0) (changed_for 4294967295 linked (fresh 4294967295 (5000 ∷ [])))) ≡ None }
{}
