//! Wrong turns of connections, regular ones and of either kind. Each is the right turn with one change.

ghost use Rattle.std.specs.Prelude.{◌≡◌, ◌∷◌, [], true};
ghost use Rattle.lload_spec.specs.CausedUp.{each_missed_caused, each_own_bind_end_due, each_retirement_due, each_up_due};
ghost use Rattle.lload_spec.specs.Fifo.{each_answered};
ghost use Rattle.lload_spec.specs.Identifiers.{each_id_right};
ghost use Rattle.lload_spec.specs.Plain.{plain};
ghost use Rattle.lload_spec.specs.Settled.{each_end_heard, each_state_heard, each_told_all};
ghost use Rattle.lload_spec.specs.Strict.{each_connection_lives, each_late_owed, each_latency_right, the_desk_lives};
ghost use Rattle.spec_examples.specs.Configurations.{binding_itself, impatient, two_identifiers};
ghost use Rattle.turn_examples.specs.Connections.{answered_and_abandoned, answers_passed_over, drained_stays_up, ended_forgotten, ended_twice, expired_not_abandoned, expiry_untold, freed_identifier_given_twice, latency_forgotten, message_taken_while_paused, never_retired, refused_behind_final_answer, refused_stays_up, sent_behind_end, up_before_own_bind, up_untold};
ghost use Rattle.turn_examples.specs.Runs.{breaks};
ghost use Rattle.turn_examples.specs.Scripts.{answer_late, beginning, delete_answered, delete_due, entry_while_stalled, forward_late, linked, own_bind_refused, search_answered, two_answered, two_deletes, two_deletes_behind};

/// An Ended is given twice, or forgotten, or tells no latency.
pub fn wrong_ends_are_refused()
    ensures twice { breaks plain delete_answered ended_twice (the_desk_lives plain ∷ []) ≡ true }
    ensures forgotten { breaks plain delete_answered ended_forgotten (each_end_heard plain ∷ []) ≡ true }
    ensures latency { breaks plain delete_answered latency_forgotten (each_latency_right plain ∷ []) ≡ true }
{}

/// A Failed is given behind a final answer; the entries of a Search are passed over; a message is taken while the connection is
/// paused.
pub fn wrong_answers_are_refused()
    ensures behind_final_answer { breaks plain delete_answered refused_behind_final_answer (each_late_owed plain ∷ []) ≡ true }
    ensures passed_over { breaks plain search_answered answers_passed_over (each_answered ∷ each_told_all plain ∷ []) ≡ true }
    ensures paused { breaks plain entry_while_stalled message_taken_while_paused (each_connection_lives plain ∷ []) ≡ true }
{}

/// A freed identifier is given twice; a connection doesn't retire at its last one, or stays up when it is drained.
pub fn wrong_identifiers_are_refused()
    ensures twice { breaks plain two_deletes_behind freed_identifier_given_twice (each_id_right plain ∷ []) ≡ true }
    ensures never_retired { breaks two_identifiers two_deletes never_retired (each_retirement_due two_identifiers ∷ []) ≡ true }
    ensures drained { breaks two_identifiers two_answered drained_stays_up (each_state_heard two_identifiers ∷ []) ≡ true }
{}

/// A connection comes up before its own Bind is answered, or stays up where this is refused, or the desk isn't told that it is
/// up.
pub fn wrong_beginnings_are_refused()
    ensures own_bind { breaks binding_itself (linked 1) up_before_own_bind (each_up_due binding_itself ∷ []) ≡ true }
    ensures own_bind_refused { breaks binding_itself own_bind_refused refused_stays_up (each_own_bind_end_due binding_itself ∷ []) ≡ true }
    ensures untold { breaks plain beginning up_untold (each_state_heard plain ∷ []) ≡ true }
{}

/// An operation that expires isn't abandoned, or its client isn't told; one that was answered is abandoned; one is sent behind
/// the end of its connection.
pub fn wrong_abandons_are_refused()
    ensures expired { breaks impatient delete_due expired_not_abandoned (each_connection_lives impatient ∷ []) ≡ true }
    ensures untold { breaks impatient delete_due expiry_untold (each_told_all impatient ∷ []) ≡ true }
    ensures answered { breaks plain answer_late answered_and_abandoned (each_connection_lives plain ∷ []) ≡ true }
    ensures behind_end { breaks plain forward_late sent_behind_end (each_missed_caused ∷ each_connection_lives plain ∷ []) ≡ true }
{}
