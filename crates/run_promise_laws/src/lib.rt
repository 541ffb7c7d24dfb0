//! The promises of every run of the parts: the six promises, what is promised beside them, that nothing is owed where no letter
//! waits, and the headline.
//!
//! The functions have empty bodies, and their contracts are laws of all runs, where links end for reasons that a link has: what
//! is known of joined lists, and of lists that turns made, of the lists of a run.
#![tactic(auto)]

ghost use Rattle.run_laws.specs.Runs.{RunsAreShared};
ghost use Rattle.run_promise_laws.specs.Promised.{RunsAreGood, RunsArePromised, RunsAreSettled, RunsAreStrict, RunsKeepHeadline, RunsRest};
ghost use Rattle.run_promise_laws.specs.Runs.{RunsEndForACause, RunsExpireWhereDue, RunsGiveIdentifiers, RunsHavePlaces, RunsLiveAsConnections, RunsOweIdles, RunsReasonOwnMessages, RunsRowsAreOpen, RunsTellBadMessages};
ghost use Rattle.run_promise_laws.specs.Runs.{RunsHearEachEnd, RunsLiveAsDesk, RunsPauseAsTold, RunsSayPauses, RunsSettlePauses, RunsTellLatencies};
ghost use Rattle.run_promise_laws.specs.Runs.{RunsCauseRefusals, RunsOweLateLetters, RunsTellBehindChoices, RunsTellIdentities, RunsTellLeaves};

/// In every run the rows of a regular connection's state are the Sents that are open in its list, at each place.
pub fn rows_are_open_sents_in_runs()
    ensures { RunsRowsAreOpen }
{
    run_laws::parts_are_played_in_runs();
    rows_laws::the_rows_of_a_regular_connection_are_its_open_sents();
}

/// In every run each connection gives its identifiers in order, each bad message takes its connection down, each operation
/// that expires is due, each end of a connection has its cause, and each message of the proxy's own its reason.
pub fn upstream_promises_hold_of_runs()
    ensures identifiers { RunsGiveIdentifiers }
    ensures bad_messages { RunsTellBadMessages }
    ensures expiries { RunsExpireWhereDue }
    ensures ends { RunsEndForACause }
    ensures own { RunsReasonOwnMessages }
{
    run_laws::parts_are_played_in_runs();
    upstream_laws::identifiers_are_given_in_order();
    upstream_laws::bad_messages_take_their_connection_down();
    upstream_laws::operations_expire_where_they_are_due();
    leave_laws::each_end_of_a_connection_has_its_cause();
    leave_laws::each_message_of_the_proxys_own_has_its_reason();
}

/// In every run each connection that has entries has a place, and lives a connection's life: it begins with Linked, sends nothing
/// before it is up, and has late letters alone behind its end; it pauses as it may; what expires, and what is abandoned, is open
/// there, or expired in the entry before; and what is missed was to go there. Each Drop and each Leave that comes to nothing was
/// given, and finds nothing to end.
pub fn connections_live_in_runs()
    ensures places { RunsHavePlaces }
    ensures life { RunsLiveAsConnections }
    ensures idle { RunsOweIdles }
{
    run_laws::parts_are_played_in_runs();
    upstream_laws::connections_with_entries_have_places();
    open_laws::connections_live();
    idle_laws::each_idle_is_owed();
}

/// In every run the desk lives its life: it is asked once for each operation that its first check lets go on and no exchange
/// takes; and it hears each letter once, of what was told: of a connection a state that it came to; of an operation, for which
/// it chose the connection before, that it is over there, or that the choice came too late. Each end that it hears tells the
/// right latency; and where nothing waits, it heard the end of each operation that is over where it chose.
pub fn the_desk_lives_in_runs()
    ensures life { RunsLiveAsDesk }
    ensures latencies { RunsTellLatencies }
    ensures ends { RunsHearEachEnd }
{
    run_laws::parts_are_played_in_runs();
    run_laws::parts_are_rested_in_runs();
    ended_laws::the_desk_lives();
    ended_laws::latencies_are_right();
    heard_laws::each_end_is_heard();
}

/// In every run a client's state says what the client pauses as its list does; a connection pauses for a client, and goes on, at
/// most as often as the client told it; and where nothing waits, each regular connection that isn't down holds exactly where a
/// client has paused it.
pub fn connections_pause_as_clients_told_them_in_runs()
    ensures said { RunsSayPauses }
    ensures owed { RunsPauseAsTold }
    ensures settled { RunsSettlePauses }
{
    lload_spec::the_family_of_a_journal_is_whole();
    run_laws::parts_are_joined_in_runs();
    run_laws::parts_are_rested_in_runs();
    pause_laws::a_client_pauses_what_its_list_says();
    pause_laws::a_connection_pauses_as_clients_told_it();
    pause_laws::pauses_settle_where_nothing_waits();
}

/// In every run where nothing waits, no client that left its exchange holds a connection that was chosen for it.
pub fn leaves_are_told_in_runs()
    ensures { RunsTellLeaves }
{
    run_laws::parts_are_played_in_runs();
    run_laws::parts_are_rested_in_runs();
    left_laws::who_left_holds_nothing();
}

/// In every run no client is told anything for a live operation before its choice, but what the proxy tells of its own; each
/// refusal has its cause, and so has each answer to a Cancel; a success that was kept back goes out only with a readable
/// identity, and no other Bind or request is refused for want of one; and each letter that comes too late is of an operation of
/// its client's own, and was given: such letters and what the client got, but for the answer to a Cancel that ended the
/// operation, are no more than the lists say that the client was given.
pub fn clients_are_told_rightly_in_runs()
    ensures choices { RunsTellBehindChoices }
    ensures refusals { RunsCauseRefusals }
    ensures identities { RunsTellIdentities }
    ensures owed { RunsOweLateLetters }
{
    run_laws::parts_are_played_in_runs();
    told_laws::a_client_is_told_nothing_before_the_choice();
    told_laws::a_refusal_has_its_cause();
    late_laws::a_kept_success_goes_out_with_its_identity();
    owed_laws::late_letters_are_owed();
}

/// **Every run keeps the six promises**: each client gets, for each operation, a beginning of what one upstream answered to it,
/// or such a beginning and one answer of the proxy's own; what went up carries its own client's identity; the desk is asked for
/// what binds the client, and chooses rightly; each connection gives its identifiers in order, has one holder at a time and
/// sends own messages for a reason; and every refusal and every change of state has its cause.
pub fn the_six_promises_hold_of_runs()
    ensures { RunsAreGood }
{
    run_laws::promises_of_one_list_hold_of_runs();
    run_laws::each_client_of_a_run_gets_one_upstreams_answers_in_order();
    run_laws::clients_are_known_in_runs();
    run_laws::requests_carry_their_own_clients_identity_in_runs();
    run_laws::requests_ask_for_what_binds_their_clients_in_runs();
    run_laws::bind_connections_are_known_in_runs();
    upstream_promises_hold_of_runs();
    clients_are_told_rightly_in_runs();
}

/// In every run what is promised beside the six promises holds: clients, connections and the desk live their lives, each request
/// goes where it was chosen or its exchange is, successes that were kept back go out with their identity alone, and whatever a
/// part was told, or heard, was owed.
pub fn what_is_promised_beside_them_holds_of_runs()
    ensures { RunsAreStrict }
{
    run_laws::promises_of_several_lists_hold_of_runs();
    run_laws::requests_go_where_their_first_checks_let_them_in_runs();
    run_laws::the_desk_hears_of_connections_in_order_in_runs();
    connections_live_in_runs();
    the_desk_lives_in_runs();
    connections_pause_as_clients_told_them_in_runs();
    clients_are_told_rightly_in_runs();
}

/// Where no letter waits in a run nothing is left to be taken: each operation is dealt with, and its client was told all of what it
/// didn't end; each upstream was told of what its client ended; the desk heard each state, each end and each choice that came
/// back; connections hold for those that have paused them; and no client that left its exchange holds a connection.
pub fn nothing_is_left_where_nothing_waits_in_runs()
    ensures { RunsAreSettled }
{
    run_laws::what_was_given_was_heard_in_runs();
    rest_laws::each_operation_is_dealt_with();
    rest_laws::each_upstream_was_told_where_nothing_waits();
    rest_laws::each_state_is_heard_where_nothing_waits();
    all_told_laws::each_client_was_told_all_where_nothing_waits();
    the_desk_lives_in_runs();
    connections_pause_as_clients_told_them_in_runs();
    leaves_are_told_in_runs();
}

/// **Every run keeps its promises**: its journal's lists are those of the parts that it names, and they keep the six promises and
/// what is promised beside them; each part's list keeps the part's share of them; and where no letter waits, nothing is left to be
/// taken.
pub fn every_run_keeps_its_promises()
    ensures promised { RunsArePromised }
    ensures shares { RunsAreShared }
    ensures rest { RunsRest }
{
    lload_spec::the_family_of_a_journal_is_whole();
    the_six_promises_hold_of_runs();
    what_is_promised_beside_them_holds_of_runs();
    run_laws::parts_keep_their_shares_in_runs();
    run_laws::parts_are_rested_in_runs();
    nothing_is_left_where_nothing_waits_in_runs();
}

/// **The headline holds of every run**, of each operation of each client: its request goes up at most once; what its client
/// gets, under the identifier of its request, is a beginning of what the upstream answered there, in order, each once and octet
/// for octet, or such a beginning and one named answer of the proxy's own; nothing comes behind its end; what went up carries
/// its own client's identity; and each refusal has its cause.
pub fn the_headline_holds_of_runs()
    ensures { RunsKeepHeadline }
{
    lload_spec::the_family_of_a_journal_is_whole();
    promise_laws::the_promises_say_the_headline();
    the_six_promises_hold_of_runs();
}
