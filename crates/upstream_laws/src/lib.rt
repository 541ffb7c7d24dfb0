//! What the promises say of upstream connections: their identifiers, expiries, bad messages and ends.
//!
//! Each function has an empty body, and its contract is a law of joined lists that turns made.
#![tactic(auto)]

ghost use Rattle.upstream_laws.specs.Laws.{BadMessagesAreTold, ConnectionsArePlaced, EndsAreCaused, ExpiriesAreDue, IdentifiersAreRight, RegularEndsAreCaused};

/// Each operation and each message of the proxy's own gets the right identifier on its connection: an operation that which
/// was freed first, else the next; an own message the next.
pub fn identifiers_are_given_in_order()
    ensures { IdentifiersAreRight }
{
    carried_laws::a_forward_says_of_its_operation_what_the_family_says();
    part_spec::a_fit_list_begins_with_all_of_it();
    caused_laws::a_bind_connection_says_what_the_family_says();
}

/// Each bad message that comes while its connection takes messages takes it down, in the very next entry: by the list alone
/// a message is bad where it can't answer what is open there.
pub fn bad_messages_take_their_connection_down()
    ensures { BadMessagesAreTold }
{
    carried_laws::a_forward_says_of_its_operation_what_the_family_says();
    part_spec::a_fit_list_begins_with_all_of_it();
    caused_laws::a_bind_connection_says_what_the_family_says();
    bind_laws::a_bind_connection_says_what_its_list_says();
}

/// Each operation that expires is due: the timeout has passed since it was sent, and since its last answer came.
pub fn operations_expire_where_they_are_due()
    ensures { ExpiriesAreDue }
{
    carried_laws::a_forward_says_of_its_operation_what_the_family_says();
    part_spec::a_fit_list_begins_with_all_of_it();
    caused_laws::a_bind_connection_says_what_the_family_says();
}

/// Each end of a regular connection has its cause: its own Bind wasn't answered in time or was refused, it was retired with
/// nothing open, a bad message came, or its link ended.
pub fn regular_connections_end_for_a_cause()
    ensures { RegularEndsAreCaused }
{
    carried_laws::a_forward_says_of_its_operation_what_the_family_says();
    part_spec::a_fit_list_begins_with_all_of_it();
}

/// Each connection that has entries has a place in a plan.
pub fn connections_with_entries_have_places()
    ensures { ConnectionsArePlaced }
{}

/// Each end of a connection has its cause: a Bind on it, or its own Bind, wasn't answered in time, it was retired with
/// nothing open and no holder, its own Bind was refused, a bad message came, or its link ended. What is left open is an end
/// for an exchange that its client left.
pub fn connections_end_for_a_cause()
    ensures { EndsAreCaused }
{
    carried_laws::a_forward_says_of_its_operation_what_the_family_says();
    part_spec::a_fit_list_begins_with_all_of_it();
    caused_laws::a_bind_connection_says_what_the_family_says();
}
