//! Lists with one change, each refused by one clause of its part's share, and kept by all others, or by all others but that of the
//! marks where this is said.

ghost use Rattle.std.specs.Prelude.{IsTrue};
ghost use Rattle.lload_names.specs.declared.names.PartName.TheVariants.{Desk, Client, Up as Connection};
ghost use Rattle.lload_spec.specs.Plain.{plain};
ghost use Rattle.part_spec.specs.Marks.{has_right_marks};
ghost use Rattle.part_spec.specs.Share.{each_answered, each_bad_told, each_busy_told, each_check_followed, each_choice_right, each_down_caused, each_ended_once, each_expired_due, each_gone_caused, each_id_right, each_idle_caused, each_late_caused, each_missed_caused, each_out_owned, each_own_bind_end_due, each_own_reasoned, each_passed, each_refusal_caused, each_retirement_due, each_sent_once, each_stall_caused, each_success_known, each_unavailable_told, each_up_due, lives_as_a_client, lives_as_a_connection, lives_as_a_desk, moments_never_fall};
ghost use Rattle.spec_examples.specs.Configurations.{binding_itself, proxying};
ghost use Rattle.part_examples.specs.AloneLists.{arrived_twice, asked_for_nobody, choice_unmarked, client_clauses, client_clauses_but_marks, client_moment_falls, connection_clauses, connection_clauses_but_marks, connection_moment_falls, desk_clauses, desk_moment_falls, entry_behind_last, got_while_paused, heard_unmarked, linked_twice, paused_twice, refused_and_linked, refuses_alone, sent_unmarked, stalled_again, success_unknown, unavailable_untold, unknown_needlessly};
ghost use Rattle.part_examples.specs.WrongLists.{answer_changed, answer_elsewhere, answer_invented, answer_late, busy_needlessly, busy_untold, drained_early, ended_again, expired_needlessly, gone_needlessly, idle_needlessly, missed_needlessly, never_up, retired_early, sent_again, sent_under_2, stray_taken, zero_taken};

/// Refused by one clause of a client's share alone.
pub fn clauses_of_a_client_refuse_alone()
    ensures choice_unmarked { IsTrue (refuses_alone (has_right_marks plain (Client 1)) (client_clauses plain 1) choice_unmarked) }
    ensures unknown_needlessly { IsTrue (refuses_alone (each_refusal_caused plain 1) (client_clauses plain 1) unknown_needlessly) }
    ensures zero_taken { IsTrue (refuses_alone (each_check_followed plain 1) (client_clauses plain 1) zero_taken) }
    ensures busy_untold { IsTrue (refuses_alone (each_busy_told 1) (client_clauses plain 1) busy_untold) }
    ensures unavailable_untold { IsTrue (refuses_alone (each_unavailable_told 1) (client_clauses plain 1) unavailable_untold) }
    ensures gone_needlessly { IsTrue (refuses_alone (each_gone_caused plain 1) (client_clauses plain 1) gone_needlessly) }
    ensures stalled_again { IsTrue (refuses_alone (each_stall_caused 1) (client_clauses plain 1) stalled_again) }
    ensures client_moment_falls { IsTrue (refuses_alone moments_never_fall (client_clauses plain 1) client_moment_falls) }
    ensures arrived_twice { IsTrue (refuses_alone (lives_as_a_client plain 1) (client_clauses plain 1) arrived_twice) }
    ensures success_unknown { IsTrue (refuses_alone (each_success_known proxying 1) (client_clauses proxying 1) success_unknown) }
{}

/// Refused by one clause of a connection's share alone.
pub fn clauses_of_a_connection_refuse_alone()
    ensures sent_unmarked { IsTrue (refuses_alone (has_right_marks plain (Connection 1)) (connection_clauses plain 1) sent_unmarked) }
    ensures sent_under_2 { IsTrue (refuses_alone (each_id_right plain 1) (connection_clauses plain 1) sent_under_2) }
    ensures got_while_paused { IsTrue (refuses_alone (each_passed plain 1) (connection_clauses plain 1) got_while_paused) }
    ensures paused_twice { IsTrue (refuses_alone (each_passed plain 1) (connection_clauses plain 1) paused_twice) }
    ensures sent_again { IsTrue (refuses_alone (each_sent_once plain 1) (connection_clauses plain 1) sent_again) }
    ensures asked_for_nobody { IsTrue (refuses_alone (each_own_reasoned plain 1) (connection_clauses plain 1) asked_for_nobody) }
    ensures never_up { IsTrue (refuses_alone (each_up_due plain 1) (connection_clauses plain 1) never_up) }
    ensures retired_early { IsTrue (refuses_alone (each_retirement_due plain) (connection_clauses plain 1) retired_early) }
    ensures refused_and_linked { IsTrue (refuses_alone (each_own_bind_end_due binding_itself 1) (connection_clauses binding_itself 1) refused_and_linked) }
    ensures expired_needlessly { IsTrue (refuses_alone (each_expired_due plain 1) (connection_clauses plain 1) expired_needlessly) }
    ensures stray_taken { IsTrue (refuses_alone (each_bad_told plain 1) (connection_clauses plain 1) stray_taken) }
    ensures drained_early { IsTrue (refuses_alone (each_down_caused plain 1) (connection_clauses plain 1) drained_early) }
    ensures connection_moment_falls { IsTrue (refuses_alone moments_never_fall (connection_clauses plain 1) connection_moment_falls) }
    ensures linked_twice { IsTrue (refuses_alone lives_as_a_connection (connection_clauses plain 1) linked_twice) }
{}

/// Refused by one clause of the desk's share alone.
pub fn clauses_of_the_desk_refuse_alone()
    ensures heard_unmarked { IsTrue (refuses_alone (has_right_marks plain Desk) (desk_clauses plain) heard_unmarked) }
    ensures busy_needlessly { IsTrue (refuses_alone (each_choice_right plain) (desk_clauses plain) busy_needlessly) }
    ensures desk_moment_falls { IsTrue (refuses_alone moments_never_fall (desk_clauses plain) desk_moment_falls) }
    ensures ended_again { IsTrue (refuses_alone lives_as_a_desk (desk_clauses plain) ended_again) }
{}

/// Refused by one clause alone of those beside that of the marks, which refuses each of these lists too.
pub fn clauses_beside_marks_refuse_alone()
    ensures answer_invented { IsTrue (refuses_alone (each_answered 1) (client_clauses_but_marks plain 1) answer_invented) }
    ensures answer_changed { IsTrue (refuses_alone (each_answered 1) (client_clauses_but_marks plain 1) answer_changed) }
    ensures entry_behind_last { IsTrue (refuses_alone (each_ended_once 1) (client_clauses_but_marks plain 1) entry_behind_last) }
    ensures answer_elsewhere { IsTrue (refuses_alone (each_out_owned 1) (client_clauses_but_marks plain 1) answer_elsewhere) }
    ensures answer_late { IsTrue (refuses_alone (each_late_caused 1) (client_clauses_but_marks plain 1) answer_late) }
    ensures missed_needlessly { IsTrue (refuses_alone each_missed_caused (connection_clauses_but_marks plain 1) missed_needlessly) }
    ensures idle_needlessly { IsTrue (refuses_alone (each_idle_caused plain 1) (connection_clauses_but_marks plain 1) idle_needlessly) }
{}
