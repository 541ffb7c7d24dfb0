//! Wrong turns of bind connections, and of the client that holds one. Each is the right turn with one change.

ghost use Rattle.std.specs.Prelude.{◌≡◌, ◌∷◌, [], true};
ghost use Rattle.lload_spec.specs.OneEach.{each_holder_alone, each_own_reasoned};
ghost use Rattle.lload_spec.specs.Settled.{each_leave_told};
ghost use Rattle.lload_spec.specs.Strict.{each_idle_owed, each_success_known, the_desk_lives};
ghost use Rattle.spec_examples.specs.Configurations.{proxying};
ghost use Rattle.turn_examples.specs.Binds.{given_back_while_in_progress, success_not_kept_back, unfinished_stays_up, unknown_succeeds};
ghost use Rattle.turn_examples.specs.Clients.{leave_forgotten};
ghost use Rattle.turn_examples.specs.Runs.{breaks};
ghost use Rattle.turn_examples.specs.Scripts.{bind_within_exchange, gone_within_exchange, identity_untold, sasl_succeeds};

/// A connection is given back while an exchange goes on; a success isn't kept back until its identity is told, or goes out
/// though this isn't told; a connection stays up whose exchange was left; a client that leaves its exchange doesn't say so.
pub fn wrong_exchanges_are_refused()
    ensures given_back { breaks proxying bind_within_exchange given_back_while_in_progress (each_holder_alone proxying ∷ []) ≡ true }
    ensures kept_back { breaks proxying sasl_succeeds success_not_kept_back (each_success_known proxying ∷ each_own_reasoned proxying ∷ the_desk_lives proxying ∷ []) ≡ true }
    ensures unknown { breaks proxying identity_untold unknown_succeeds (each_success_known proxying ∷ []) ≡ true }
    ensures unfinished { breaks proxying gone_within_exchange unfinished_stays_up (each_idle_owed proxying ∷ the_desk_lives proxying ∷ each_leave_told proxying ∷ []) ≡ true }
    ensures leave { breaks proxying gone_within_exchange leave_forgotten (each_leave_told proxying ∷ []) ≡ true }
{}
