//! What the desk has heard where nothing waits: the end of each operation that is over at its connection.
//!
//! Each function has an empty body, and its contract is a law of joined lists that turns made. The layer above may rely on
//! nothing else.
#![tactic(auto)]

ghost use Rattle.heard_laws.specs.Laws.{BindsRetireInUse, EachEndIsHeard, HolderEndsAreHeard, RegularEndsAreHeard};

/// Where what each part took of another is all that this one gave it, the desk heard the end of each operation that is over at
/// a regular connection: it was missed there, or was sent and isn't open any more.
pub fn ends_at_regular_connections_are_heard()
    ensures { RegularEndsAreHeard }
{
    carried_laws::a_forward_says_of_its_operation_what_the_family_says();
    part_spec::a_fit_list_begins_with_all_of_it();
}

/// And it heard the end of each operation that was to begin an exchange at a bind connection, and is over there: it was missed
/// there, or the exchange that it began holds the connection no more.
pub fn ends_of_exchanges_are_heard()
    ensures { HolderEndsAreHeard }
{
    caused_laws::a_bind_connection_says_what_the_family_says();
}

/// So it heard the end of each operation that it chose a connection for, and that is over there. What it was asked for goes on in
/// no exchange: a client asks the desk for an operation, or forwards it for the holder of its exchange, and never both.
pub fn each_end_is_heard()
    ensures { EachEndIsHeard }
{
    ends_at_regular_connections_are_heard();
    ends_of_exchanges_are_heard();
}

/// A bind connection that retired and isn't down has a Bind open, or somebody holds it; whether or not something waits.
pub fn bind_connections_retire_in_use()
    ensures { BindsRetireInUse }
{
    caused_laws::a_bind_connection_says_what_the_family_says();
    drained_laws::a_drained_connection_is_at_its_end();
}
