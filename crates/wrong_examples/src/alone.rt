//! Wrong journals that one clause alone refuses: they keep all others of the six promises and of what is promised beside them, but
//! where it is said; those that are refused by what is said of rest keep all these promises and the other clauses of rest.

ghost use Rattle.std.specs.Prelude.{IsTrue};
ghost use Rattle.lload_spec.specs.Binding.{each_asked_rightly};
ghost use Rattle.lload_spec.specs.Caused.{each_busy_told, each_check_followed, each_gone_caused, each_late_caused, each_refusal_caused, each_stall_caused, each_unavailable_told, moments_never_fall, each_entry_placed};
ghost use Rattle.lload_spec.specs.CausedUp.{each_bad_told, each_down_caused, each_expired_due, each_missed_caused, each_own_bind_end_due, each_retirement_due, each_up_due, each_bind_expiry_told};
ghost use Rattle.lload_spec.specs.Fifo.{each_answered, each_ended_once, each_out_owned, each_sent_chosen, each_sent_once, each_unanswered, has_outs_and_sents_in_place};
ghost use Rattle.lload_spec.specs.Identifiers.{each_id_right};
ghost use Rattle.lload_spec.specs.Identity.{each_sent_identified};
ghost use Rattle.lload_spec.specs.OneEach.{each_holder_alone, each_own_reasoned};
ghost use Rattle.lload_spec.specs.Settled.{each_dealt_with, each_end_heard, each_leave_told, each_pause_settled, each_return_heard, each_state_heard, each_told_all, each_told_upstream};
ghost use Rattle.lload_spec.specs.Strict.{each_client_lives, each_connection_lives, each_pause_owed, each_success_known};
ghost use Rattle.lload_spec.specs.Plain.{plain};
ghost use Rattle.spec_examples.specs.Configurations.{binding_itself, in_turn_anew, proxying, reloading, restricting_anew, two_tiers, writing_anew, impatient};
ghost use Rattle.wrong_examples.specs.Alone.{all_clauses, asked_alone, asked_for_nobody, base_changed, bind_wanted, busy_behind_choice, each_answered_there, each_choice_right, each_plan_right, exchange_given_back, fifo_clauses, good_clauses, late_and_live, missed_needlessly, never_read_again, none_chosen, refuses_alone, resting_clauses, sent_again, unsent_answered, asked_at_client, arrived_at_connection, retired_at_desk, expired_and_left};
ghost use Rattle.wrong_examples.specs.Binds.{check_not_followed, entry_after_bind, identity_of_another};
ghost use Rattle.wrong_examples.specs.Choices.{busy_not_told, unavailable_not_told};
ghost use Rattle.wrong_examples.specs.Connections.{expired_not_abandoned, expired_too_early, refused_and_linked, up_before_own_bind};
ghost use Rattle.wrong_examples.specs.Deletes.{answer_under_upstream_identifier, drained_early, gone_for_no_reason, moment_falls, out_at_connection, out_at_desk, retired_early, sent_unchosen, stray_taken};
ghost use Rattle.wrong_examples.specs.Features.{bound_kept, bound_moved, freed_passed_over, got_while_paused, missed_end_unheard, one_still_stalled, order_kept, own_again, paused_behind_loss_for_none, set_free, stalled_twice, told_canceled_kept, who_again};
ghost use Rattle.wrong_examples.specs.Journals.{answer_not_told, chosen_twice, end_unheard, entries_after_abandon, forged_entry, late_choice_sent, loss_not_told, loss_unheard, missed_not_told, other_kind_told, request_behind_end, return_unheard};
ghost use Rattle.wrong_examples.specs.Refusals.{delete_left_running, exchange_left_open, unknown_succeeds};

/// Refused alone by what is said of answers.
pub fn fifo_clauses_refuse_alone()
    ensures sent_again { IsTrue (refuses_alone each_sent_once (all_clauses plain) sent_again) }
    ensures forged_entry { IsTrue (refuses_alone each_answered (all_clauses plain) forged_entry) }
    ensures other_kind_told { IsTrue (refuses_alone each_answered (all_clauses plain) other_kind_told) }
    ensures unsent_answered { IsTrue (refuses_alone each_unanswered (all_clauses plain) unsent_answered) }
    ensures entries_after_abandon { IsTrue (refuses_alone each_ended_once (all_clauses plain) entries_after_abandon) }
    ensures entry_after_bind { IsTrue (refuses_alone each_ended_once (all_clauses proxying) entry_after_bind) }
    ensures answer_under_upstream_identifier { IsTrue (refuses_alone each_out_owned (all_clauses plain) answer_under_upstream_identifier) }
{}

/// Refused alone by what is said of identities, of wants, and of choices and plans.
pub fn right_clauses_refuse_alone()
    ensures identity_of_another { IsTrue (refuses_alone (each_sent_identified proxying) (all_clauses proxying) identity_of_another) }
    ensures bind_wanted { IsTrue (refuses_alone (each_asked_rightly plain) (all_clauses plain) bind_wanted) }
    ensures asked_alone { IsTrue (refuses_alone each_answered_there (all_clauses plain) asked_alone) }
    ensures none_chosen { IsTrue (refuses_alone (each_choice_right plain) (all_clauses plain) none_chosen) }
    ensures base_changed { IsTrue (refuses_alone (each_plan_right reloading) (all_clauses reloading) base_changed) }
{}

/// Refused alone by what is said of identifiers, holders and own messages.
pub fn one_each_clauses_refuse_alone()
    ensures freed_passed_over { IsTrue (refuses_alone (each_id_right plain) (all_clauses plain) freed_passed_over) }
    ensures own_again { IsTrue (refuses_alone (each_id_right plain) (all_clauses plain) own_again) }
    ensures exchange_given_back { IsTrue (refuses_alone (each_holder_alone proxying) (all_clauses proxying) exchange_given_back) }
    ensures asked_for_nobody { IsTrue (refuses_alone (each_own_reasoned plain) (all_clauses plain) asked_for_nobody) }
{}

/// Refused alone by what is said of the causes of what a client is told and does, and of moments.
pub fn client_causes_clauses_refuse_alone()
    ensures busy_behind_choice { IsTrue (refuses_alone (each_refusal_caused plain) (all_clauses plain) busy_behind_choice) }
    ensures check_not_followed { IsTrue (refuses_alone (each_check_followed proxying) (all_clauses proxying) check_not_followed) }
    ensures busy_not_told { IsTrue (refuses_alone each_busy_told (all_clauses two_tiers) busy_not_told) }
    ensures unavailable_not_told { IsTrue (refuses_alone each_unavailable_told (all_clauses two_tiers) unavailable_not_told) }
    ensures gone_for_no_reason { IsTrue (refuses_alone (each_gone_caused plain) (all_clauses plain) gone_for_no_reason) }
    ensures late_and_live { IsTrue (refuses_alone each_late_caused (all_clauses plain) late_and_live) }
    ensures stalled_twice { IsTrue (refuses_alone each_stall_caused (all_clauses plain) stalled_twice) }
    ensures moment_falls { IsTrue (refuses_alone moments_never_fall (all_clauses plain) moment_falls) }
{}

/// Refused alone by what is said of the causes of what a connection does.
pub fn connection_causes_clauses_refuse_alone()
    ensures up_before_own_bind { IsTrue (refuses_alone (each_up_due binding_itself) (all_clauses binding_itself) up_before_own_bind) }
    ensures retired_early { IsTrue (refuses_alone (each_retirement_due plain) (all_clauses plain) retired_early) }
    ensures refused_and_linked { IsTrue (refuses_alone (each_own_bind_end_due binding_itself) (all_clauses binding_itself) refused_and_linked) }
    ensures expired_too_early { IsTrue (refuses_alone (each_expired_due binding_itself) (all_clauses binding_itself) expired_too_early) }
    ensures missed_needlessly { IsTrue (refuses_alone each_missed_caused (all_clauses plain) missed_needlessly) }
    ensures stray_taken { IsTrue (refuses_alone (each_bad_told plain) (all_clauses plain) stray_taken) }
    ensures drained_early { IsTrue (refuses_alone (each_down_caused plain) (all_clauses plain) drained_early) }
{}

/// Refused by one clause of the six promises alone, and by what is promised beside them of each Sent.
pub fn overlapping_clauses_refuse_alone()
    ensures sent_unchosen { IsTrue (refuses_alone each_sent_chosen (good_clauses plain) sent_unchosen) }
    ensures late_choice_sent { IsTrue (refuses_alone each_sent_chosen (good_clauses plain) late_choice_sent) }
{}

/// Refused alone by what is promised beside the six promises.
pub fn beside_clauses_refuse_alone()
    ensures chosen_twice { IsTrue (refuses_alone (each_client_lives plain) (all_clauses plain) chosen_twice) }
    ensures request_behind_end { IsTrue (refuses_alone (each_client_lives plain) (all_clauses plain) request_behind_end) }
    ensures got_while_paused { IsTrue (refuses_alone (each_connection_lives plain) (all_clauses plain) got_while_paused) }
    ensures expired_not_abandoned { IsTrue (refuses_alone (each_connection_lives binding_itself) (all_clauses binding_itself) expired_not_abandoned) }
    ensures unknown_succeeds { IsTrue (refuses_alone (each_success_known proxying) (all_clauses proxying) unknown_succeeds) }
{}

/// Refused alone by what is said of rest.
pub fn rest_clauses_refuse_alone()
    ensures missed_not_told { IsTrue (refuses_alone each_dealt_with (resting_clauses plain) missed_not_told) }
    ensures answer_not_told { IsTrue (refuses_alone (each_told_all plain) (resting_clauses plain) answer_not_told) }
    ensures loss_not_told { IsTrue (refuses_alone (each_told_all plain) (resting_clauses plain) loss_not_told) }
    ensures delete_left_running { IsTrue (refuses_alone (each_told_upstream plain) (resting_clauses plain) delete_left_running) }
    ensures loss_unheard { IsTrue (refuses_alone (each_state_heard plain) (resting_clauses plain) loss_unheard) }
    ensures end_unheard { IsTrue (refuses_alone (each_end_heard plain) (resting_clauses plain) end_unheard) }
    ensures return_unheard { IsTrue (refuses_alone each_return_heard (resting_clauses plain) return_unheard) }
    ensures never_read_again { IsTrue (refuses_alone (each_pause_settled plain) (resting_clauses plain) never_read_again) }
    ensures exchange_left_open { IsTrue (refuses_alone (each_leave_told proxying) (resting_clauses proxying) exchange_left_open) }
    ensures missed_end_unheard { IsTrue (refuses_alone (each_end_heard proxying) (resting_clauses proxying) missed_end_unheard) }
{}

/// Refused alone: identifiers used again, clients that don't read, Cancels and other plans.
pub fn features_clauses_refuse_alone()
    ensures who_again { IsTrue (refuses_alone (each_id_right proxying) (all_clauses proxying) who_again) }
    ensures told_canceled_kept { IsTrue (refuses_alone (each_id_right plain) (all_clauses plain) told_canceled_kept) }
    ensures one_still_stalled { IsTrue (refuses_alone (each_connection_lives plain) (all_clauses plain) one_still_stalled) }
    ensures paused_behind_loss_for_none { IsTrue (refuses_alone each_pause_owed (all_clauses plain) paused_behind_loss_for_none) }
    ensures bound_moved { IsTrue (refuses_alone (each_choice_right writing_anew) (all_clauses writing_anew) bound_moved) }
    ensures bound_kept { IsTrue (refuses_alone (each_choice_right restricting_anew) (all_clauses restricting_anew) bound_kept) }
    ensures set_free { IsTrue (refuses_alone (each_asked_rightly writing_anew) (all_clauses writing_anew) set_free) }
    ensures order_kept { IsTrue (refuses_alone (each_choice_right in_turn_anew) (all_clauses in_turn_anew) order_kept) }
{}

/// Refused alone by what is said of a Bind that expires, and of the entries that each sort of part has.
pub fn later_causes_clauses_refuse_alone()
    ensures expired_and_left { IsTrue (refuses_alone each_bind_expiry_told (all_clauses impatient) expired_and_left) }
    ensures asked_at_client { IsTrue (refuses_alone each_entry_placed (all_clauses plain) asked_at_client) }
    ensures arrived_at_connection { IsTrue (refuses_alone each_entry_placed (all_clauses plain) arrived_at_connection) }
    ensures retired_at_desk { IsTrue (refuses_alone each_entry_placed (all_clauses plain) retired_at_desk) }
{}

/// Refused by one clause of what is said of answers alone, and by what is said of the life of a part.
pub fn in_place_clauses_refuse_alone()
    ensures out_at_connection { IsTrue (refuses_alone has_outs_and_sents_in_place fifo_clauses out_at_connection) }
    ensures out_at_desk { IsTrue (refuses_alone has_outs_and_sents_in_place fifo_clauses out_at_desk) }
{}
