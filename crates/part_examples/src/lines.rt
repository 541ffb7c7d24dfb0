//! Which lines of a script stand where they are, and the journal of a script: what its lines make where each stands, and none
//! where one doesn't.

ghost use Rattle.std.specs.Prelude.{◌≡◌, ◌==◌, ◌∷◌, [], ◌++◌, length, IsFalse, IsTrue, None, Some, codes, false, true};
ghost use Rattle.lload_names.specs.declared.names.PartName.TheVariants.{Desk, Client, Up as Connection};
ghost use Rattle.lload_names.specs.declared.command.Command.TheVariants.{ClientArrives, ClientBytes, ClientFlows, ClientLeaves, ClientStalls, Reload, SetWord, Settle, Step, StepFrom, StepMessage, StepTick, Tick, UpBytes, UpLost, UpReady};
ghost use Rattle.lload_spec.specs.Plain.{plain};
ghost use Rattle.part_spec.specs.Play.{Follows, played, script_journal, settings_of_run};
ghost use Rattle.part_spec.specs.World.{journal_of};
ghost use Rattle.spec_examples.specs.Configurations.{proxying, proxying_anew, reloading, write_coherent};
ghost use Rattle.spec_examples.specs.Deletes.{delete_answered};
ghost use Rattle.spec_examples.specs.Octets.{delete_5};
ghost use Rattle.spec_examples.specs.Reloads.{not_ready_yet, taken_while_running};
ghost use Rattle.part_examples.specs.FeatureScripts.{not_ready_yet_script, stalled_and_gone_script, taken_while_running_script};
ghost use Rattle.part_examples.specs.Lines.{before_reload, client_left, next_plan, one_client, one_lost, one_ready, placeless, reloaded, reloaded_behind_2, rests_behind, stands_behind};
ghost use Rattle.part_examples.specs.Scripts.{delete_script, exchange_script, rebound_script, window_script};

/// Clients arrive by rising number, also behind one that left.
pub fn clients_arrive_in_order()
    ensures first { IsTrue (stands_behind plain false [] (ClientArrives 1)) }
    ensures next { IsTrue (stands_behind plain false one_client (ClientArrives 2)) }
    ensures behind_one_that_left { IsTrue (stands_behind plain false client_left (ClientArrives 2)) }
    ensures none_first { IsFalse (stands_behind plain false [] (ClientArrives 0)) }
    ensures passed_over { IsFalse (stands_behind plain false [] (ClientArrives 2)) }
    ensures again { IsFalse (stands_behind plain false one_client (ClientArrives 1)) }
    ensures again_behind_its_end { IsFalse (stands_behind plain false client_left (ClientArrives 1)) }
{}

/// What a client does stands once it has arrived.
pub fn lines_of_a_client_stand_once_it_arrived()
    ensures bytes { IsTrue (stands_behind plain false one_client (ClientBytes 1 [])) }
    ensures bytes_behind_its_end { IsTrue (stands_behind plain false client_left (ClientBytes 1 [])) }
    ensures bytes_too_early { IsFalse (stands_behind plain false [] (ClientBytes 1 [])) }
    ensures leaves { IsTrue (stands_behind plain false one_client (ClientLeaves 1)) }
    ensures leaves_behind_its_end { IsTrue (stands_behind plain false client_left (ClientLeaves 1)) }
    ensures leaves_too_early { IsFalse (stands_behind plain false [] (ClientLeaves 1)) }
    ensures stalls { IsTrue (stands_behind plain false one_client (ClientStalls 1)) }
    ensures stalls_behind_its_end { IsTrue (stands_behind plain false client_left (ClientStalls 1)) }
    ensures stalls_too_early { IsFalse (stands_behind plain false [] (ClientStalls 1)) }
    ensures flows { IsTrue (stands_behind plain false one_client (ClientFlows 1)) }
    ensures flows_behind_its_end { IsTrue (stands_behind plain false client_left (ClientFlows 1)) }
    ensures flows_too_early { IsFalse (stands_behind plain false [] (ClientFlows 1)) }
    ensures bytes_of_another { IsFalse (stands_behind plain false one_client (ClientBytes 2 [])) }
{}

/// A connection is made ready once, where its number belongs to a place, and the one before it at the place is down.
pub fn connections_are_made_ready_in_order()
    ensures regular { IsTrue (stands_behind plain false [] (UpReady 1)) }
    ensures bind { IsTrue (stands_behind plain false [] (UpReady 2)) }
    ensures next_at_its_place { IsTrue (stands_behind plain false one_lost (UpReady 3)) }
    ensures next_at_the_other_place { IsFalse (stands_behind plain false one_lost (UpReady 4)) }
    ensures none { IsFalse (stands_behind plain false [] (UpReady 0)) }
    ensures again { IsFalse (stands_behind plain false one_ready (UpReady 1)) }
    ensures again_behind_its_end { IsFalse (stands_behind plain false one_lost (UpReady 1)) }
    ensures next_while_one_is_up { IsFalse (stands_behind plain false one_ready (UpReady 3)) }
    ensures next_before_the_first { IsFalse (stands_behind plain false [] (UpReady 3)) }
    ensures one_after_next { IsFalse (stands_behind plain false one_lost (UpReady 5)) }
    ensures without_places { IsFalse (stands_behind placeless false [] (UpReady 1)) }
{}

/// What a connection does stands once it was linked.
pub fn lines_of_a_connection_stand_once_it_was_linked()
    ensures bytes { IsTrue (stands_behind plain false one_ready (UpBytes 1 [])) }
    ensures bytes_behind_its_end { IsTrue (stands_behind plain false one_lost (UpBytes 1 [])) }
    ensures bytes_too_early { IsFalse (stands_behind plain false [] (UpBytes 1 [])) }
    ensures lost { IsTrue (stands_behind plain false one_ready (UpLost 1)) }
    ensures lost_behind_its_end { IsTrue (stands_behind plain false one_lost (UpLost 1)) }
    ensures lost_too_early { IsFalse (stands_behind plain false [] (UpLost 1)) }
    ensures tick { IsTrue (stands_behind plain false one_ready (StepTick 1)) }
    ensures tick_behind_its_end { IsTrue (stands_behind plain false one_lost (StepTick 1)) }
    ensures tick_too_early { IsFalse (stands_behind plain false [] (StepTick 1)) }
    ensures bytes_of_another { IsFalse (stands_behind plain false one_ready (UpBytes 2 [])) }
{}

/// A step stands once its part began; the sender may be any part.
pub fn steps_stand_once_their_part_began()
    ensures desk { IsTrue (stands_behind plain false [] (Step Desk)) }
    ensures client { IsTrue (stands_behind plain false one_client (Step (Client 1))) }
    ensures client_behind_its_end { IsTrue (stands_behind plain false client_left (Step (Client 1))) }
    ensures client_too_early { IsFalse (stands_behind plain false [] (Step (Client 1))) }
    ensures connection { IsTrue (stands_behind plain false one_ready (Step (Connection 1))) }
    ensures connection_behind_its_end { IsTrue (stands_behind plain false one_lost (Step (Connection 1))) }
    ensures connection_too_early { IsFalse (stands_behind plain false [] (Step (Connection 1))) }
    ensures message_of_a_client { IsTrue (stands_behind plain false one_client (StepMessage (Client 1))) }
    ensures message_of_a_client_too_early { IsFalse (stands_behind plain false [] (StepMessage (Client 1))) }
    ensures message_of_a_connection { IsTrue (stands_behind plain false one_ready (StepMessage (Connection 1))) }
    ensures message_of_a_connection_too_early { IsFalse (stands_behind plain false [] (StepMessage (Connection 1))) }
    ensures message_of_the_desk { IsFalse (stands_behind plain false one_client (StepMessage Desk)) }
    ensures letter_for_the_desk { IsTrue (stands_behind plain false [] (StepFrom Desk (Client 7))) }
    ensures letter_for_a_client { IsTrue (stands_behind plain false one_client (StepFrom (Client 1) Desk)) }
    ensures letter_for_a_client_too_early { IsFalse (stands_behind plain false [] (StepFrom (Client 1) Desk)) }
    ensures letter_for_a_connection { IsTrue (stands_behind plain false one_ready (StepFrom (Connection 1) (Client 7))) }
    ensures letter_for_a_connection_too_early { IsFalse (stands_behind plain false [] (StepFrom (Connection 1) Desk)) }
{}

/// The clock, the word and a settle stand always.
pub fn some_lines_always_stand()
    ensures tick { IsTrue (stands_behind plain false [] (Tick 4294967295)) }
    ensures word { IsTrue (stands_behind plain false [] (SetWord 0)) }
    ensures settle { IsTrue (stands_behind plain false [] (Settle)) }
{}

/// Another plan comes once, where there is another configuration; behind it connections of the plan before are linked no more.
pub fn a_reload_stands_once()
    ensures with_a_next { IsTrue (stands_behind reloading true [] (Reload)) }
    ensures without_a_next { IsFalse (stands_behind plain false [] (Reload)) }
    ensures again { IsFalse (stands_behind reloading true reloaded (Reload)) }
    ensures first_of_the_new_plan { IsTrue (stands_behind reloading true reloaded (UpReady 2)) }
    ensures second_of_the_new_plan { IsTrue (stands_behind reloading true reloaded (UpReady 3)) }
    ensures next_of_the_new_plan { IsFalse (stands_behind reloading true reloaded (UpReady 4)) }
    ensures of_the_plan_before { IsFalse (stands_behind proxying_anew true reloaded_behind_2 (UpReady 1)) }
    ensures again_without_numbers { IsFalse (stands_behind plain true (Reload ∷ []) Reload) }
    ensures of_the_new_plan_behind_2 { IsTrue (stands_behind proxying_anew true reloaded_behind_2 (UpReady 3)) }
{}

/// The journal of a script, and none where a line of it doesn't stand.
pub fn a_script_has_a_journal_where_its_lines_stand()
    ensures the_delete { Follows plain None delete_script delete_answered }
    ensures nothing { script_journal plain None [] ≡ Some [] }
    ensures for_a_client_that_did_not_come { script_journal plain None (delete_script ++ ClientBytes 2 [] ∷ []) ≡ None }
    ensures first_of_all { script_journal plain None (Step (Client 1) ∷ delete_script) ≡ None }
    ensures dropped_bytes { script_journal plain None (UpReady 1 ∷ Settle ∷ ClientArrives 1 ∷ ClientLeaves 1 ∷ ClientBytes 1 delete_5 ∷ Settle ∷ []) ≡ script_journal plain None (UpReady 1 ∷ Settle ∷ ClientArrives 1 ∷ ClientLeaves 1 ∷ []) }
    ensures taken_plan { Follows before_reload (Some next_plan) taken_while_running_script taken_while_running }
    ensures plan_alone { Follows before_reload (Some next_plan) not_ready_yet_script not_ready_yet }
    ensures without_a_next { script_journal before_reload None not_ready_yet_script ≡ None }
    ensures two_plans { script_journal before_reload (Some next_plan) (Reload ∷ Reload ∷ []) ≡ None }
    ensures no_reload { Follows plain (Some next_plan) delete_script delete_answered }
{}

/// A settle ends where nothing is left to be taken.
pub fn settles_end_at_rest()
    ensures delete { IsTrue (rests_behind plain delete_script) }
    ensures exchange { IsTrue (rests_behind proxying exchange_script) }
    ensures rebound { IsTrue (rests_behind proxying rebound_script) }
    ensures window { IsTrue (rests_behind write_coherent window_script) }
    ensures stalled { IsTrue (rests_behind plain stalled_and_gone_script) }
    ensures unsettled { IsFalse (rests_behind plain (delete_script ++ UpLost 1 ∷ [])) }
{}

/// A plan is taken where the numbers of its connections stay within 32 bits; where they don't, its line stands, and does nothing.
pub fn a_plan_is_taken_where_it_has_numbers()
    ensures greatest { IsTrue (length (settings_of_run before_reload (Some next_plan) (UpReady 4294967293 ∷ Reload ∷ [])).plans == 2) }
    ensures too_great { IsTrue (length (settings_of_run before_reload (Some next_plan) (UpReady 4294967294 ∷ Reload ∷ [])).plans == 1) }
    ensures nothing_done { journal_of (played plain (Reload ∷ delete_script)) ≡ delete_answered }
{}
