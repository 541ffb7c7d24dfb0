//! Wrong journals of operations, their answers and their ends: each is a worked one with a small change, and the clause
//! that is named refuses it.

ghost use Rattle.std.specs.Prelude.{IsFalse, IsTrue};
ghost use Rattle.std.specs.List.{list_all};
ghost use Rattle.lload_spec.specs.Binding.{each_asked_rightly};
ghost use Rattle.lload_spec.specs.Caused.{each_check_followed, each_gone_caused, each_refusal_caused, each_entry_placed};
ghost use Rattle.lload_spec.specs.CausedUp.{each_bad_told, each_missed_caused};
ghost use Rattle.lload_spec.specs.Fifo.{each_answered, each_ended_once, each_out_owned, each_sent_chosen, each_unanswered};
ghost use Rattle.lload_spec.specs.Identifiers.{each_id_right};
ghost use Rattle.lload_spec.specs.Journal.{family};
ghost use Rattle.lload_spec.specs.Plain.{plain};
ghost use Rattle.lload_spec.specs.Right.{each_chosen_rightly};
ghost use Rattle.lload_spec.specs.Settled.{each_dealt_with, each_end_heard, each_return_heard, each_state_heard, each_told_all, each_told_upstream};
ghost use Rattle.lload_spec.specs.Strict.{each_client_lives, each_connection_lives, each_idle_owed, the_desk_lives};
ghost use Rattle.lload_spec.specs.WellFormed.{has_message};
ghost use Rattle.wrong_examples.specs.Journals.{answer_behind_loss, answer_cut, answer_not_told, answers_exchanged, chosen_twice, down_for_another_reason, end_for_another_reason, end_unheard, end_without_notice, entries_after_abandon, forged_entry, identifier_one_less, identifier_too_large, identifier_used_again, idle_though_open, late_answer_told, late_choice_sent, loss_after_final_answer_adds_refusal, loss_not_told, loss_told_twice, loss_unheard, loss_without_cause, missed_not_told, notice_before_loss, notice_without_end, other_kind_taken, other_kind_told, request_behind_end, return_unheard, search_left_running, sent_behind_loss, start_tls_restricted, start_tls_sent_upstream, start_tls_succeeds, zero_asked, client_is_up, connection_is_asked};

/// Refused: what a client must not get of a Search.
pub fn wrong_entries_are_refused()
    ensures forged_entry { IsFalse (each_answered (family forged_entry)) }
    ensures answers_exchanged { IsFalse (each_answered (family answers_exchanged)) }
    ensures entries_after_abandon { IsFalse (each_ended_once (family entries_after_abandon)) }
{}

/// Refused: a loss that didn't happen, that is told wrongly, or behind which something goes on.
pub fn wrong_losses_are_refused()
    ensures without_cause { IsFalse (each_refusal_caused plain (family loss_without_cause)) }
    ensures told_twice { IsFalse (each_answered (family loss_told_twice)) }
    ensures behind_final_answer { IsFalse (each_answered (family loss_after_final_answer_adds_refusal)) }
    ensures behind_end { IsFalse (each_ended_once (family loss_after_final_answer_adds_refusal)) }
    ensures answer_behind_loss { IsFalse (each_connection_lives plain (family answer_behind_loss)) }
    ensures sent_behind_loss { IsFalse (each_missed_caused (family sent_behind_loss)) }
{}

/// Refused as settled: something is left to be told or heard.
pub fn unsettled_journals_are_refused()
    ensures answer_not_told { IsFalse (each_told_all plain (family answer_not_told)) }
    ensures loss_not_told { IsFalse (each_told_all plain (family loss_not_told)) }
    ensures missed_not_told { IsFalse (each_dealt_with (family missed_not_told)) }
    ensures loss_unheard { IsFalse (each_state_heard plain (family loss_unheard)) }
    ensures end_unheard { IsFalse (each_end_heard plain (family end_unheard)) }
    ensures return_unheard { IsFalse (each_return_heard (family return_unheard)) }
    ensures search_left_running { IsFalse (each_told_upstream plain (family search_left_running)) }
{}

/// Refused: identifiers that are used again, changed, or no identifiers, and octets that are no message.
pub fn wrong_identifiers_are_refused()
    ensures used_again { IsFalse (each_id_right plain (family identifier_used_again)) }
    ensures one_less { IsFalse (each_out_owned (family identifier_one_less)) }
    ensures too_large { IsFalse (list_all (λ e. has_message e.what) identifier_too_large) }
    ensures answer_cut { IsFalse (list_all (λ e. has_message e.what) answer_cut) }
{}

/// Refused: ends of a client's part that are told wrongly, or behind which something goes on.
pub fn wrong_ends_are_refused()
    ensures notice_without_end { IsFalse (each_check_followed plain (family notice_without_end)) }
    ensures notice_unowned { IsFalse (each_out_owned (family notice_without_end)) }
    ensures end_without_notice { IsFalse (each_gone_caused plain (family end_without_notice)) }
    ensures end_for_another_reason { IsFalse (each_check_followed plain (family end_for_another_reason)) }
    ensures notice_before_loss { IsFalse (each_client_lives plain (family notice_before_loss)) }
    ensures zero_asked { IsFalse (each_asked_rightly plain (family zero_asked)) }
    ensures request_behind_end { IsFalse (each_client_lives plain (family request_behind_end)) }
{}

/// Refused: StartTLS goes on, or is answered otherwise than by its refusal.
pub fn wrong_start_tls_is_refused()
    ensures sent_upstream { IsFalse (each_check_followed plain (family start_tls_sent_upstream)) }
    ensures asked { IsFalse (the_desk_lives plain (family start_tls_sent_upstream)) }
    ensures succeeds { IsFalse (each_unanswered (family start_tls_succeeds)) }
    ensures restricted { IsFalse (each_refusal_caused plain (family start_tls_restricted)) }
{}

/// Refused: an answer of another kind is told or taken, or takes the connection down for another reason.
pub fn answers_of_another_kind_are_refused()
    ensures told { IsFalse (each_answered (family other_kind_told)) }
    ensures taken { IsFalse (each_bad_told plain (family other_kind_taken)) }
    ensures another_reason { IsFalse (each_bad_told plain (family down_for_another_reason)) }
{}

/// Refused: choices, answers and Abandons that come too late, and aren't taken as late.
pub fn wrong_late_letters_are_refused()
    ensures choice_sent { IsFalse (each_sent_chosen (family late_choice_sent)) }
    ensures choice_right { IsTrue (each_chosen_rightly plain (family late_choice_sent).desk) }
    ensures chosen_twice { IsFalse (each_client_lives plain (family chosen_twice)) }
    ensures answer_told { IsFalse (each_ended_once (family late_answer_told)) }
    ensures idle_though_open { IsFalse (each_idle_owed plain (family idle_though_open)) }
{}

/// Refused: entries that stand in the list of a part of another sort.
pub fn entries_of_other_parts_are_refused()
    ensures client_is_up { IsFalse (each_entry_placed (family client_is_up)) }
    ensures connection_is_asked { IsFalse (each_entry_placed (family connection_is_asked)) }
{}
