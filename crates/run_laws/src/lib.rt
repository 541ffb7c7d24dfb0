//! The promises, of every run of the parts.
//!
//! A run is any list of moves of the parts: events in any order, and ends of links for reasons that a link has. Its journal is
//! that of the world that the moves make. The functions state laws of all runs, and rest on those of shares, links and
//! fitness.
#![tactic(auto)]

ghost use Rattle.run_laws.specs.Runs.{RunsAreShared, RunsAreJoined, RunsKeepOneList, RunsKeepSeveralLists, RunsKeepUnanswered, RunsSendOnce, RunsAreRested, RunsHeardAtRest, RunsSendWhereChosen, RunsAnswer, RunsKeepFifo};
ghost use Rattle.run_laws.specs.Runs.{RunsArePlayed, RunsKnowClients, RunsKeepChecks, RunsKeepIdentity, RunsTellExpiredBinds, RunsSayBinds, RunsHoldAlone};
ghost use Rattle.run_laws.specs.Runs.{RunsAskRightly, RunsBindClients, RunsGoRightly, RunsHearInOrder};

/// In every run each part's list keeps the part's whole share of the promises: each letter was fit where it was taken.
pub fn parts_keep_their_shares_in_runs()
    ensures { RunsAreShared }
{
    part_spec::a_fit_list_begins_with_all_of_it();
    link_laws::states_are_of_lists();
    link_laws::the_desk_is_linked();
    link_laws::clients_are_linked();
    link_laws::connections_are_linked();
    fitness_laws::letters_are_fit();
}

/// So the journal of every run keeps what the promises say of one list alone.
pub fn promises_of_one_list_hold_of_runs()
    ensures { RunsKeepOneList }
{
    parts_keep_their_shares_in_runs();
    promise_laws::shares_give_what_is_said_of_one_list();
}

/// In every run the lists of the parts are joined: each keeps its part's share, its letters were fit, and what it took of
/// another is a beginning of what this one gave.
pub fn parts_are_joined_in_runs()
    ensures { RunsAreJoined }
{
    parts_keep_their_shares_in_runs();
    fitness_laws::letters_are_fit();
    fitness_laws::parts_are_linked();
}

/// So the journal of every run keeps what the promises say of several lists, as far as that is drawn from shares and links
/// (`OfSeveralLists`).
pub fn promises_of_several_lists_hold_of_runs()
    ensures { RunsKeepSeveralLists }
{
    parts_are_joined_in_runs();
    joined_laws::shares_and_links_give_what_is_said_of_several_lists();
}

/// In every run an operation is sent at most once, over all connections; and one that was sent to no upstream gets nothing,
/// or one answer of the proxy's own.
pub fn operations_are_sent_once_or_answered_by_the_proxy_in_runs()
    ensures sent_once { RunsSendOnce }
    ensures unanswered { RunsKeepUnanswered }
{
    parts_are_joined_in_runs();
    lload_spec::the_family_of_a_journal_is_whole();
    fifo_laws::an_operation_is_sent_once();
    fifo_laws::an_operation_that_was_not_sent_is_answered_by_the_proxy_alone();
}

/// Where nothing waits in a run, what each part took of another is all that this one gave it.
pub fn parts_are_rested_in_runs()
    ensures { RunsAreRested }
{
    parts_are_joined_in_runs();
    fitness_laws::parts_are_linked();
}

/// So the desk heard each state of each connection, and that each choice which came too late was returned.
pub fn what_was_given_was_heard_in_runs()
    ensures { RunsHeardAtRest }
{
    parts_are_rested_in_runs();
    settled_laws::what_was_given_was_heard();
}

/// In every run each operation is sent where it was chosen, or where its exchange is; its client gets what that upstream
/// answered, in order, or a beginning of it and one answer of the proxy's own; and nothing behind its end: the promise of one
/// upstream's answers holds whole.
pub fn each_client_of_a_run_gets_one_upstreams_answers_in_order()
    ensures sent_chosen { RunsSendWhereChosen }
    ensures answered { RunsAnswer }
    ensures fifo { RunsKeepFifo }
{
    parts_are_joined_in_runs();
    promises_of_one_list_hold_of_runs();
    promises_of_several_lists_hold_of_runs();
    operations_are_sent_once_or_answered_by_the_proxy_in_runs();
    lload_spec::the_family_of_a_journal_is_whole();
    forward_laws::an_operation_is_sent_where_it_was_chosen();
    answer_laws::a_client_gets_what_its_upstream_answered();
}

/// In every run the lists of the parts are joined, and those of clients and connections are made by turns of these.
pub fn parts_are_played_in_runs()
    ensures { RunsArePlayed }
{
    parts_are_joined_in_runs();
    lload_spec::the_family_of_a_journal_is_whole();
}

/// So in every run a client is who the family of the journal says, where each of its messages came: by the answer that
/// settled its last Bind. Each message has directly behind it what its first check wants, and each client's end has its
/// cause, by the family.
pub fn clients_are_known_in_runs()
    ensures known { RunsKnowClients }
    ensures checks { RunsKeepChecks }
{
    parts_are_played_in_runs();
    identity_laws::a_client_is_who_the_family_says();
    caused_laws::clients_keep_what_their_checks_say();
}

/// And each request that went upstream carries the identity of its own client.
pub fn requests_carry_their_own_clients_identity_in_runs()
    ensures { RunsKeepIdentity }
{
    parts_are_played_in_runs();
    caused_laws::a_sent_carries_its_own_clients_identity();
}

/// In every run each Bind that expires takes its connection down, in the very next entry; and what a bind connection's state
/// says is what its list says by the family of the journal. And a bind connection has one holder at a time.
pub fn bind_connections_are_known_in_runs()
    ensures expired { RunsTellExpiredBinds }
    ensures says { RunsSayBinds }
    ensures alone { RunsHoldAlone }
{
    parts_are_joined_in_runs();
    parts_are_played_in_runs();
    caused_laws::an_expired_bind_takes_its_connection_down();
    caused_laws::a_bind_connection_says_what_the_family_says();
    caused_laws::a_bind_connection_has_one_holder_at_a_time();
}

/// In every run the desk is asked for each request for what its client's choices and writes bind it to where the request came,
/// as the client's state and its list both say; and it is asked only for a request that its first check lets go on, and that
/// doesn't go on in an exchange.
pub fn requests_ask_for_what_binds_their_clients_in_runs()
    ensures bound { RunsBindClients }
    ensures asks { RunsAskRightly }
{
    parts_are_played_in_runs();
    window_laws::a_client_is_bound_as_its_list_says();
    window_laws::each_request_asks_for_what_binds_its_client();
}

/// In every run each request that was sent upstream, or that its connection missed, is one that its first check let go on, at a
/// connection of its kind: where its exchange is, or where it was chosen.
pub fn requests_go_where_their_first_checks_let_them_in_runs()
    ensures { RunsGoRightly }
{
    parts_are_played_in_runs();
    sent_laws::a_request_is_sent_where_its_first_check_let_it_go();
}

/// In every run the desk hears of each connection that it is up, that it retired and that it is down in this order, and passes
/// none over that stands in the connection's list.
pub fn the_desk_hears_of_connections_in_order_in_runs()
    ensures { RunsHearInOrder }
{
    parts_are_played_in_runs();
    news_laws::the_desk_hears_of_each_connection_in_order();
}
