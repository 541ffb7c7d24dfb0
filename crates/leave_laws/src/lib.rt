//! Where a client ends what it began: which Drops and Leaves it gives, the ends of connections that follow, the Abandons among
//! the messages of the proxy's own, and the Drops and Leaves that come to nothing. With these each end of a connection has its
//! cause.
//!
//! Each function has an empty body, and its contract is a law of joined lists that turns made.
#![tactic(auto)]

ghost use Rattle.leave_laws.specs.Laws.{AllEndsAreCaused, BindIdlesAreOfLeft, DropsAreOfEnded, OwnMessagesAreReasoned, RegularIdlesAreOwed, RegularIdlesHaveNothingToEnd};

/// Each end of a connection has its cause; where it ends because an exchange is unfinished, its client left it: the client is
/// gone, or sent a Bind of another version than 3 while its exchange was there.
pub fn each_end_of_a_connection_has_its_cause()
    ensures { AllEndsAreCaused }
{
    caused_laws::a_bind_connection_says_what_the_family_says();
    upstream_laws::connections_end_for_a_cause();
    upstream_laws::regular_connections_end_for_a_cause();
}

/// Each Drop that a connection takes is of an operation that its client ended: by an Abandon, a Cancel or a Bind, or with its
/// own end.
pub fn a_drop_is_of_an_operation_that_its_client_ended()
    ensures { DropsAreOfEnded }
{}

/// Each message of the proxy's own has its reason, and stands where it is due: the own Bind behind Linked, Who Am I behind a
/// success that is kept back, and an Abandon of an operation that its client ended, or that expired directly before.
pub fn each_message_of_the_proxys_own_has_its_reason()
    ensures { OwnMessagesAreReasoned }
{
    carried_laws::a_forward_says_of_its_operation_what_the_family_says();
    part_spec::a_fit_list_begins_with_all_of_it();
    caused_laws::a_bind_connection_says_what_the_family_says();
    a_drop_is_of_an_operation_that_its_client_ended();
}

/// Each Drop that comes to nothing on a regular connection is of an operation that was forwarded there, that its client ended
/// and that isn't open there any more; and it is the only one.
pub fn a_drop_comes_to_nothing_where_nothing_is_to_end()
    ensures { RegularIdlesHaveNothingToEnd }
{
    carried_laws::a_forward_says_of_its_operation_what_the_family_says();
    part_spec::a_fit_list_begins_with_all_of_it();
    a_drop_is_of_an_operation_that_its_client_ended();
}

/// So each Idle of a regular connection is owed: its Drop was given, and wasn't taken before, with an Abandon or as Idle.
pub fn a_drop_that_comes_to_nothing_is_owed()
    ensures { RegularIdlesAreOwed }
{
    carried_laws::a_forward_says_of_its_operation_what_the_family_says();
    part_spec::a_fit_list_begins_with_all_of_it();
    a_drop_comes_to_nothing_where_nothing_is_to_end();
}

/// Each Leave that comes to nothing is of a Bind that was forwarded to its connection, which was chosen for it, and its client
/// left the connection.
pub fn a_leave_that_comes_to_nothing_is_of_a_client_that_left()
    ensures { BindIdlesAreOfLeft }
{
    caused_laws::a_bind_connection_says_what_the_family_says();
}
