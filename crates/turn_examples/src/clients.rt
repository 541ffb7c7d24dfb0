//! Wrong turns of clients. Each is the right turn with one change.

ghost use Rattle.std.specs.Prelude.{◌≡◌, ◌∷◌, [], true};
ghost use Rattle.lload_spec.specs.Binding.{each_asked_rightly};
ghost use Rattle.lload_spec.specs.Caused.{each_busy_told, each_check_followed, each_gone_caused, each_refusal_caused, each_stall_caused};
ghost use Rattle.lload_spec.specs.Fifo.{each_ended_once, each_out_owned, each_sent_chosen};
ghost use Rattle.lload_spec.specs.Identity.{each_sent_identified};
ghost use Rattle.lload_spec.specs.OneEach.{each_own_reasoned};
ghost use Rattle.lload_spec.specs.Plain.{plain};
ghost use Rattle.lload_spec.specs.Settled.{each_dealt_with, each_pause_settled, each_return_heard, each_told_all, each_told_upstream};
ghost use Rattle.lload_spec.specs.Strict.{each_client_lives, each_connection_lives, each_pause_owed, each_sent_rightly, the_desk_lives};
ghost use Rattle.spec_examples.specs.Configurations.{proxying, rejecting, two_tiers, write_coherent};
ghost use Rattle.turn_examples.specs.Clients.{answer_under_upstream_identifier, busy_untold, cancel_succeeds_first, drop_forgotten, identity_of_earlier_bind_kept, late_choice_followed, late_letter_goes_out, message_taken_while_holding, notice_forgotten, pause_given_twice, refused_and_asked, resume_forgotten_at_gone, returned_forgotten, stalled_twice, write_window_dropped_at_answer};
ghost use Rattle.turn_examples.specs.Runs.{breaks};
ghost use Rattle.turn_examples.specs.Scripts.{answer_late, bound_twice, busy, choice_late, delete_answered, delete_behind_bind, delete_restricted, loss_late, search_abandoned, search_behind_write, search_canceled, stalled, stalled_and_gone, stalls_again, zero_identifier};

/// An answer goes out under the upstream's identifier; an answer, or a refusal, goes out behind the end of its operation; a
/// client isn't told that a tier is busy, or that it broke the protocol.
pub fn wrong_answers_are_refused()
    ensures under_upstream_identifier { breaks plain delete_answered answer_under_upstream_identifier (each_out_owned ∷ each_told_all plain ∷ []) ≡ true }
    ensures late_answer { breaks plain answer_late late_letter_goes_out (each_ended_once ∷ []) ≡ true }
    ensures late_refusal { breaks plain loss_late late_letter_goes_out (each_ended_once ∷ []) ≡ true }
    ensures busy { breaks two_tiers busy busy_untold (each_busy_told ∷ each_dealt_with ∷ []) ≡ true }
    ensures notice { breaks plain zero_identifier notice_forgotten (each_check_followed plain ∷ each_gone_caused plain ∷ []) ≡ true }
{}

/// A Drop is forgotten; a choice that comes too late is followed, or isn't returned; the success of a Cancel goes out before
/// the end that it makes.
pub fn wrong_ends_are_refused()
    ensures drop { breaks plain search_abandoned drop_forgotten (each_told_upstream plain ∷ []) ≡ true }
    ensures choice_followed { breaks plain choice_late late_choice_followed (each_sent_chosen ∷ each_sent_rightly plain ∷ each_told_upstream plain ∷ each_return_heard ∷ []) ≡ true }
    ensures choice_kept { breaks plain choice_late returned_forgotten (each_return_heard ∷ []) ≡ true }
    ensures cancel { breaks plain search_canceled cancel_succeeds_first (each_check_followed plain ∷ each_refusal_caused plain ∷ each_own_reasoned plain ∷ each_told_all plain ∷ []) ≡ true }
{}

/// A client that is gone doesn't let its connection be read again; one that stalls pauses it twice, or stalls again.
pub fn wrong_pauses_are_refused()
    ensures resume { breaks plain stalled_and_gone resume_forgotten_at_gone (each_pause_settled plain ∷ []) ≡ true }
    ensures pause { breaks plain stalled pause_given_twice (each_pause_owed ∷ each_connection_lives plain ∷ []) ≡ true }
    ensures stall { breaks plain stalls_again stalled_twice (each_stall_caused ∷ []) ≡ true }
{}

/// A request is taken while a Bind is live, carries the identity of an earlier Bind, or isn't bound by a write that was
/// answered; the desk is asked for one that is refused.
pub fn wrong_requests_are_refused()
    ensures holding { breaks proxying delete_behind_bind message_taken_while_holding (each_client_lives proxying ∷ []) ≡ true }
    ensures identity { breaks proxying bound_twice identity_of_earlier_bind_kept (each_sent_identified proxying ∷ []) ≡ true }
    ensures window { breaks write_coherent search_behind_write write_window_dropped_at_answer (each_asked_rightly write_coherent ∷ []) ≡ true }
    ensures refused { breaks rejecting delete_restricted refused_and_asked (the_desk_lives rejecting ∷ []) ≡ true }
{}
