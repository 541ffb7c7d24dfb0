//! Wrong turns that leave something out, or pass something over. Each is the right turn with one change.

ghost use Rattle.std.specs.Prelude.{◌≡◌, ◌∷◌, [], true};
ghost use Rattle.lload_spec.specs.Caused.{each_check_followed, each_refusal_caused, each_unavailable_told};
ghost use Rattle.lload_spec.specs.CausedUp.{each_bad_told, each_bind_expiry_told};
ghost use Rattle.lload_spec.specs.Plain.{plain};
ghost use Rattle.lload_spec.specs.Settled.{each_dealt_with, each_end_heard, each_pause_settled, each_state_heard, each_told_all, each_told_upstream};
ghost use Rattle.lload_spec.specs.Strict.{each_idle_owed, the_desk_lives};
ghost use Rattle.spec_examples.specs.Configurations.{impatient, proxying, rejecting};
ghost use Rattle.turn_examples.specs.Clients.{drop_forgotten};
ghost use Rattle.turn_examples.specs.Connections.{ended_forgotten};
ghost use Rattle.turn_examples.specs.Runs.{breaks};
ghost use Rattle.turn_examples.specs.Scripts.{bind_answered, bind_behind_search, bind_due, delete_alone, delete_answered, delete_behind_loss, delete_restricted, delete_sent, forward_late, next_in_exchange, reads_again, search_abandoned, search_while_stalled, stalled, stray_answer, unbinds};
ghost use Rattle.turn_examples.specs.Silences.{answer_passed_over, ask_forgotten, bad_message_taken, choice_untold, chosen_behind_end, down_untold, drop_passed_over, exchange_asked_anew, expired_bind_stays_up, forward_forgotten, loss_untold, pause_forgotten, pause_passed_over, refusal_untold, resume_forgotten, resume_passed_over, unavailable_untold, unbind_passed_over};
ghost use Rattle.wrong_examples.specs.Alone.{each_choice_right};

/// The desk isn't asked for a request, the choice isn't told, or isn't followed; the next step of an exchange is asked for anew;
/// an answer, or a refusal, is told to nobody.
pub fn silences_on_the_way_are_refused()
    ensures ask { breaks plain delete_sent ask_forgotten (each_dealt_with ∷ []) ≡ true }
    ensures choice { breaks plain delete_sent choice_untold (each_dealt_with ∷ []) ≡ true }
    ensures forward { breaks plain delete_sent forward_forgotten (each_dealt_with ∷ []) ≡ true }
    ensures anew { breaks proxying next_in_exchange exchange_asked_anew (the_desk_lives proxying ∷ []) ≡ true }
    ensures answer { breaks plain delete_answered answer_passed_over (each_told_all plain ∷ []) ≡ true }
    ensures refusal { breaks rejecting delete_restricted refusal_untold (each_check_followed rejecting ∷ each_dealt_with ∷ []) ≡ true }
    ensures unavailable { breaks plain delete_alone unavailable_untold (each_unavailable_told ∷ each_dealt_with ∷ []) ≡ true }
{}

/// An Unbind is passed over; a Bind doesn't end the operations before it; a Drop comes to nothing though its operation is live;
/// the end of a holder isn't told to the desk.
pub fn silences_at_an_end_are_refused()
    ensures unbind { breaks plain unbinds unbind_passed_over (each_check_followed plain ∷ []) ≡ true }
    ensures bind { breaks plain bind_behind_search drop_forgotten (each_told_upstream plain ∷ []) ≡ true }
    ensures dropped { breaks plain search_abandoned drop_passed_over (each_idle_owed plain ∷ each_told_upstream plain ∷ []) ≡ true }
    ensures holder { breaks plain bind_answered ended_forgotten (each_end_heard plain ∷ []) ≡ true }
{}

/// A bad message, or a Bind that expires, doesn't take its connection down; a client isn't told of a loss, or of an operation
/// that is missed; the desk isn't told that a connection is down, or chooses it all the same.
pub fn silences_at_a_loss_are_refused()
    ensures bad { breaks plain stray_answer bad_message_taken (each_refusal_caused plain ∷ each_bad_told plain ∷ the_desk_lives plain ∷ []) ≡ true }
    ensures expired { breaks impatient bind_due expired_bind_stays_up (each_bind_expiry_told ∷ the_desk_lives impatient ∷ []) ≡ true }
    ensures lost { breaks plain stray_answer loss_untold (each_told_all plain ∷ []) ≡ true }
    ensures missed { breaks plain forward_late loss_untold (each_dealt_with ∷ []) ≡ true }
    ensures down { breaks plain stray_answer down_untold (each_state_heard plain ∷ []) ≡ true }
    ensures chosen { breaks plain delete_behind_loss chosen_behind_end (each_choice_right plain ∷ []) ≡ true }
{}

/// A client that doesn't read, or reads again, tells nobody; a connection passes over what it tells.
pub fn silences_of_pauses_are_refused()
    ensures pause { breaks plain stalled pause_forgotten (each_pause_settled plain ∷ []) ≡ true }
    ensures behind_choice { breaks plain search_while_stalled pause_forgotten (each_pause_settled plain ∷ []) ≡ true }
    ensures resume { breaks plain reads_again resume_forgotten (each_pause_settled plain ∷ []) ≡ true }
    ensures paused { breaks plain stalled pause_passed_over (each_pause_settled plain ∷ []) ≡ true }
    ensures resumed { breaks plain reads_again resume_passed_over (each_pause_settled plain ∷ []) ≡ true }
{}
