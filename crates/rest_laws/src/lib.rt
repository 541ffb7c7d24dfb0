//! What is said of operations where nothing waits, of every run of the parts: how far each one is, by the machine's counts.
//!
//! The functions have empty bodies, and their contracts are laws of all runs.
#![tactic(auto)]

ghost use Rattle.rest_laws.specs.Laws.{DroppedAreOver, RunsDealWithAll, RunsHearEachState, RunsRetireInUse, RunsTellUpstream};

/// Where nothing waits in a run, each operation was sent, is answered by the proxy itself, or was ended by its client.
pub fn each_operation_is_dealt_with()
    ensures { RunsDealWithAll }
{
    run_laws::parts_are_played_in_runs();
    run_laws::operations_are_sent_once_or_answered_by_the_proxy_in_runs();
}

/// In every run a regular connection that retired and isn't down has an operation open: with nothing left to do it went down in
/// the same turn.
pub fn regular_connections_retire_in_use()
    ensures { RunsRetireInUse }
{
    run_laws::parts_are_joined_in_runs();
    run_laws::parts_are_played_in_runs();
    rows_laws::the_rows_of_a_regular_connection_are_its_open_sents();
}

/// An operation whose Drop a regular connection took isn't open there: the Drop ended it, or found nothing to end, and no
/// Forward of it came behind. It is a law of lists that turns made.
pub fn a_dropped_operation_is_open_no_longer()
    ensures { DroppedAreOver }
{
    carried_laws::a_forward_says_of_its_operation_what_the_family_says();
    part_spec::a_fit_list_begins_with_all_of_it();
}

/// Where nothing waits in a run the desk heard that each connection is up, retired and down, where it is; and each that retired
/// and isn't down is in use: an operation is open there, or somebody holds it.
pub fn each_state_is_heard_where_nothing_waits()
    ensures { RunsHearEachState }
{
    run_laws::parts_are_played_in_runs();
    run_laws::what_was_given_was_heard_in_runs();
    heard_laws::bind_connections_retire_in_use();
    regular_connections_retire_in_use();
}

/// Where nothing waits in a run each upstream was told of what its client ended: no operation other than a Bind that its client
/// ended is open upstream.
pub fn each_upstream_was_told_where_nothing_waits()
    ensures { RunsTellUpstream }
{
    run_laws::parts_are_played_in_runs();
    run_laws::parts_are_rested_in_runs();
    run_laws::requests_go_where_their_first_checks_let_them_in_runs();
    rows_laws::the_rows_of_a_regular_connection_are_its_open_sents();
    expect_laws::what_is_expected_has_a_row_or_was_dropped();
    a_dropped_operation_is_open_no_longer();
}
