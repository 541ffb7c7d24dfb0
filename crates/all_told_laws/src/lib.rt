//! Where nothing waits, what a client was told for an operation that it didn't end is all that its upstream answered.
//!
//! The functions have empty bodies, and their contracts are laws of lists that turns made, and of all runs.
#![tactic(auto)]

ghost use Rattle.all_told_laws.specs.Laws.{ClientsAreToldAll, RunsKeepRows, RunsTellAll};

/// Where nothing waits in a run, an operation that is live and was sent has a row still at the connection that it was
/// sent to.
pub fn live_operations_have_rows_where_nothing_waits()
    ensures { RunsKeepRows }
{
    run_laws::parts_are_played_in_runs();
}

/// Where each letter that was given was taken, and each live operation that was sent has its row still, each client was
/// told all of what it didn't end. An operation that is over got all answers of its upstream, the final one among them,
/// or a refusal for a loss: it was lost, it expired, or its identity was asked for in vain. One that is live got all
/// answers that came so far, and is open upstream; or all but the success that is kept back until its identity is
/// known. It is a law of lists that turns made.
pub fn clients_are_told_all_where_live_operations_have_rows()
    ensures { ClientsAreToldAll }
{
    part_spec::a_fit_list_begins_with_all_of_it();
    joined_laws::shares_and_links_give_what_is_said_of_several_lists();
    fifo_laws::an_operation_is_sent_once();
    answer_laws::a_client_gets_what_its_upstream_answered();
    identity_laws::a_client_is_who_the_family_says();
    caused_laws::a_bind_connection_says_what_the_family_says();
    window_laws::each_request_asks_for_what_binds_its_client();
    sent_laws::a_request_is_sent_where_its_first_check_let_it_go();
    rows_laws::the_rows_of_a_regular_connection_are_its_open_sents();
}

/// **Where nothing waits in a run each client was told all** of what it didn't end.
pub fn each_client_was_told_all_where_nothing_waits()
    ensures { RunsTellAll }
{
    run_laws::parts_are_played_in_runs();
    run_laws::parts_are_rested_in_runs();
    live_operations_have_rows_where_nothing_waits();
    clients_are_told_all_where_live_operations_have_rows();
}
