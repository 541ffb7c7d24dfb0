//! Worked journals of identifiers that are used again, once their operations were answered to the end, which keep every promise; at their ends nothing is left to be taken.

ghost use Rattle.lload_spec.specs.Journal.{family};
ghost use Rattle.lload_spec.specs.Good.{Good};
ghost use Rattle.lload_spec.specs.Settled.{Settled};
ghost use Rattle.lload_spec.specs.Strict.{Strict};
ghost use Rattle.lload_spec.specs.WellFormed.{WellFormed};
ghost use Rattle.lload_spec.specs.Plain.{plain};
ghost use Rattle.std.specs.Prelude.{◌≡◌, ◌∷◌, [], ◌++◌, IsFalse, IsTrue, Some};
ghost use Rattle.lload_names.specs.declared.names.EndWhy.TheVariants.{Lost};
ghost use Rattle.lload_names.specs.declared.names.What.TheVariants.{Down, Expired};
ghost use Rattle.spec_examples.specs.Configurations.{proxying};
ghost use Rattle.spec_examples.specs.Entries.{op, up};
ghost use Rattle.spec_examples.specs.Octets.{sasl_in_progress, who_is_ann};
ghost use Rattle.spec_examples.specs.Reuses.{late_to_freed, binds_again, bound_in_turn, freed_identifier, freed_first, abandoned_not_freed, given_while_open, is_open_behind, settled_by};

/// A Delete is sent under the identifier that the answer to the one before freed.
pub fn freed_identifier_is_good()
    ensures good { Good plain (family freed_identifier) }
    ensures strict { Strict plain (family freed_identifier) }
    ensures settled { Settled plain (family freed_identifier) }
    ensures well_formed { WellFormed freed_identifier }
{}

/// Of two that were freed, the one that was freed first is used first.
pub fn freed_first_is_good()
    ensures good { Good plain (family freed_first) }
    ensures strict { Strict plain (family freed_first) }
    ensures settled { Settled plain (family freed_first) }
    ensures well_formed { WellFormed freed_first }
{}

/// The identifier of a Search that was abandoned is not used again, and its late answer is dropped.
pub fn abandoned_not_freed_is_good()
    ensures good { Good plain (family abandoned_not_freed) }
    ensures strict { Strict plain (family abandoned_not_freed) }
    ensures settled { Settled plain (family abandoned_not_freed) }
    ensures well_formed { WellFormed abandoned_not_freed }
{}

/// The answer to a Who Am I is looked up in all that comes behind, also where its Bind's identifier was given again; the later
/// Bind is settled by what comes under that identifier.
pub fn who_am_i_outlasts_its_bind()
    ensures earlier { settled_by (op 1 1) ≡ Some who_is_ann }
    ensures later { settled_by (op 2 1) ≡ Some sasl_in_progress }
{}

/// An Abandon names the last operation that was sent with the identifier; the end of a connection ends both.
pub fn an_abandon_names_the_last_with_its_identifier()
    ensures earlier { IsTrue (is_open_behind given_while_open (op 1 1)) }
    ensures later { IsFalse (is_open_behind given_while_open (op 1 2)) }
    ensures earlier_lost { IsFalse (is_open_behind (given_while_open ++ up 1 (Down Lost) ∷ []) (op 1 1)) }
    ensures earlier_expired { IsFalse (is_open_behind (given_while_open ++ up 1 (Expired (op 1 1)) ∷ []) (op 1 1)) }
{}

/// A late answer under a freed identifier that no operation has is dropped.
pub fn late_to_freed_is_good()
    ensures good { Good plain (family late_to_freed) }
    ensures strict { Strict plain (family late_to_freed) }
    ensures settled { Settled plain (family late_to_freed) }
    ensures well_formed { WellFormed late_to_freed }
{}

/// Each Bind of an exchange, and each later Bind, gets the freed identifier; that of a Who Am I is not used again.
pub fn binds_again_is_good()
    ensures good { Good proxying (family binds_again) }
    ensures strict { Strict proxying (family binds_again) }
    ensures settled { Settled proxying (family binds_again) }
    ensures well_formed { WellFormed binds_again }
{}

/// Two clients use one bind connection in turn.
pub fn bound_in_turn_is_good()
    ensures good { Good proxying (family bound_in_turn) }
    ensures strict { Strict proxying (family bound_in_turn) }
    ensures settled { Settled proxying (family bound_in_turn) }
    ensures well_formed { WellFormed bound_in_turn }
{}
