//! Lists of several parts that are not linked.

ghost use Rattle.std.specs.Prelude.{◌≡◌, IsTrue};
ghost use Rattle.lload_names.specs.declared.names.PartName.TheVariants.{Desk, Client, Up as Connection};
ghost use Rattle.lload_spec.specs.Journal.{Family};
ghost use Rattle.lload_spec.specs.Plain.{plain};
ghost use Rattle.part_spec.specs.Gives.{gives};
ghost use Rattle.part_spec.specs.Linked.{Linked};
ghost use Rattle.part_spec.specs.Marked.{letters_to, taken_from};
ghost use Rattle.part_spec.specs.Marks.{has_right_marks};
ghost use Rattle.part_spec.specs.Stamps.{StampedLinked, are_later, letters_of, list_of_turns, rise_above, stamps_given, stamps_taken};
ghost use Rattle.part_examples.specs.WrongLinks.{choice_never_given, choice_taken, other_choice_taken, taken_at};

/// Refused: a letter that its part didn't give, and another letter than was given; each list has the right marks.
pub fn wrong_links_are_refused()
    ensures right { taken_from Desk (choice_taken (Client 1)) ≡ letters_to (Client 1) (gives plain Desk (choice_taken Desk)) }
    ensures never_given { (F : Family) → Linked plain F choice_never_given → ⊥ }
    ensures never_given_marked { IsTrue (has_right_marks plain (Client 1) (choice_never_given (Client 1))) }
    ensures other_taken { (F : Family) → Linked plain F other_choice_taken → ⊥ }
    ensures other_taken_marked { IsTrue (has_right_marks plain (Client 1) (other_choice_taken (Client 1))) }
{}

/// Refused: a letter that is taken by a turn with the stamp of the turn that gave it; with a greater one it is later, the stamps of
/// each list rise, and the letters are those that the lists stand for.
pub fn letters_are_taken_later()
    ensures at_once { (F : Family) → StampedLinked plain F (taken_at 3) → ⊥ }
    ensures rises { IsTrue (rise_above 0 (taken_at 3 (Client 1))) }
    ensures by_desk { gives plain Desk (list_of_turns (taken_at 3 Desk)) ≡ letters_of (taken_at 3 Desk) }
    ensures by_client { gives plain (Client 1) (list_of_turns (taken_at 3 (Client 1))) ≡ letters_of (taken_at 3 (Client 1)) }
    ensures by_connection { gives plain (Connection 1) (list_of_turns (taken_at 3 (Connection 1))) ≡ letters_of (taken_at 3 (Connection 1)) }
    ensures behind { IsTrue (are_later (stamps_given (Client 1) (taken_at 4 Desk)) (stamps_taken Desk (taken_at 4 (Client 1)))) }
{}
