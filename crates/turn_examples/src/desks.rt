//! Wrong turns of the desk. Each is the right turn with one change.

ghost use Rattle.std.specs.Prelude.{◌≡◌, ◌∷◌, [], true};
ghost use Rattle.spec_examples.specs.Configurations.{reloading, two_tiers, write_coherent};
ghost use Rattle.turn_examples.specs.Desks.{always_first_eligible, next_tier_when_first_is_busy, nothing_pending, picked_by_plan_before, plan_taken_with_any_base};
ghost use Rattle.turn_examples.specs.Runs.{breaks};
ghost use Rattle.turn_examples.specs.Scripts.{busy, delete_behind_reload, other_base, two_searches};
ghost use Rattle.wrong_examples.specs.Alone.{each_choice_right, each_plan_right};

/// A connection is picked by the plan before a reload, of the next tier where the first is busy, always as the first eligible
/// one, or as if nothing were pending.
pub fn wrong_choices_are_refused()
    ensures plan_before { breaks reloading delete_behind_reload picked_by_plan_before (each_choice_right reloading ∷ []) ≡ true }
    ensures next_tier { breaks two_tiers busy next_tier_when_first_is_busy (each_choice_right two_tiers ∷ []) ≡ true }
    ensures first_eligible { breaks write_coherent two_searches always_first_eligible (each_choice_right write_coherent ∷ []) ≡ true }
    ensures pending { breaks two_tiers busy nothing_pending (each_choice_right two_tiers ∷ []) ≡ true }
{}

/// A plan is taken with another base than the run says.
pub fn wrong_plans_are_refused()
    ensures other_base { breaks reloading other_base plan_taken_with_any_base (each_plan_right reloading ∷ []) ≡ true }
{}
