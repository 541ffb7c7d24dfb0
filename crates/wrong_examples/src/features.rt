//! Wrong journals of identifiers that are used again, of clients that don't read, of Cancels and of other plans: each is a
//! worked one with a small change, and the clause that is named refuses it.

ghost use Rattle.std.specs.Prelude.{IsFalse};
ghost use Rattle.lload_spec.specs.Caused.{each_check_followed, each_refusal_caused, each_stall_caused};
ghost use Rattle.lload_spec.specs.Fifo.{each_ended_once, each_unanswered};
ghost use Rattle.lload_spec.specs.Identifiers.{each_id_right};
ghost use Rattle.lload_spec.specs.Right.{each_chosen_rightly};
ghost use Rattle.lload_spec.specs.Settled.{each_pause_settled, each_told_upstream};
ghost use Rattle.lload_spec.specs.Strict.{each_connection_lives};
ghost use Rattle.lload_spec.specs.Journal.{family};
ghost use Rattle.lload_spec.specs.Plain.{plain};
ghost use Rattle.spec_examples.specs.Configurations.{proxying, reloading};
ghost use Rattle.wrong_examples.specs.Features.{abandoned_again, busy_for_earlier, canceled_left_running, canceled_uncaused, canceled_untold, earlier_chosen, entry_behind_cancel, flowing_unstalled, freed_passed_over, got_while_paused, later_freed_first, no_other_plan, none_named_ended, numbered_anew, other_answer, other_base, own_again, own_freed, paused_never, paused_twice, plan_left_out, plan_taken_twice, resumed_never, stalled_twice, success_forged, success_untold, bind_canceled};

/// Refused: identifiers that are not free, or not in their order.
pub fn wrong_identifiers_are_refused()
    ensures freed_passed_over { IsFalse (each_id_right plain (family freed_passed_over)) }
    ensures later_freed_first { IsFalse (each_id_right plain (family later_freed_first)) }
    ensures abandoned_again { IsFalse (each_id_right plain (family abandoned_again)) }
    ensures own_again { IsFalse (each_id_right plain (family own_again)) }
    ensures own_freed { IsFalse (each_id_right proxying (family own_freed)) }
{}

/// Refused: what happens while a client doesn't read.
pub fn wrong_pauses_are_refused()
    ensures got_while_paused { IsFalse (each_connection_lives plain (family got_while_paused)) }
    ensures resumed_never { IsFalse (each_pause_settled plain (family resumed_never)) }
    ensures stalled_twice { IsFalse (each_stall_caused (family stalled_twice)) }
    ensures flowing_unstalled { IsFalse (each_stall_caused (family flowing_unstalled)) }
    ensures paused_twice { IsFalse (each_connection_lives plain (family paused_twice)) }
    ensures paused_never { IsFalse (each_connection_lives plain (family paused_never)) }
{}

/// Refused: Cancels that are answered wrongly, or not followed up.
pub fn wrong_cancels_are_refused()
    ensures success_forged { IsFalse (each_unanswered (family success_forged)) }
    ensures success_untold { IsFalse (each_check_followed plain (family success_untold)) }
    ensures canceled_untold { IsFalse (each_check_followed plain (family canceled_untold)) }
    ensures canceled_uncaused { IsFalse (each_refusal_caused plain (family canceled_uncaused)) }
    ensures entry_behind_cancel { IsFalse (each_ended_once (family entry_behind_cancel)) }
    ensures canceled_left_running { IsFalse (each_told_upstream plain (family canceled_left_running)) }
    ensures other_answer { IsFalse (each_check_followed plain (family other_answer)) }
    ensures bind_canceled { IsFalse (each_check_followed plain (family bind_canceled)) }
    ensures none_named_ended { IsFalse (each_refusal_caused plain (family none_named_ended)) }
{}

/// Refused: choices by another plan than the one in force, and plans that are not the next of the run.
pub fn wrong_plans_are_refused()
    ensures earlier_chosen { IsFalse (each_chosen_rightly reloading (family earlier_chosen).desk) }
    ensures numbered_anew { IsFalse (each_chosen_rightly reloading (family numbered_anew).desk) }
    ensures busy_for_earlier { IsFalse (each_chosen_rightly reloading (family busy_for_earlier).desk) }
    ensures other_base { IsFalse (each_chosen_rightly reloading (family other_base).desk) }
    ensures plan_left_out { IsFalse (each_chosen_rightly reloading (family plan_left_out).desk) }
    ensures plan_taken_twice { IsFalse (each_chosen_rightly reloading (family plan_taken_twice).desk) }
    ensures no_other_plan { IsFalse (each_chosen_rightly plain (family no_other_plan).desk) }
{}
