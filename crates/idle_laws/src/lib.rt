//! Leaves that come to nothing on bind connections: the client gave each of them, once, where it left its exchange, and finds
//! that its holder doesn't hold the connection. With these each Drop and each Leave that comes to nothing is owed.
//!
//! Each function has an empty body, and its contract is a law of joined lists that turns made.
#![tactic(auto)]

ghost use Rattle.idle_laws.specs.Laws.{BindIdlesAreOwed, EachIdleIsOwed, LeavesAreGivenOnce};

/// A client gives a connection the Leave of a holder at most once: behind it the client holds nothing for this holder, and no
/// operation is chosen twice.
pub fn a_leave_is_given_once()
    ensures { LeavesAreGivenOnce }
{}

/// Each Leave that comes to nothing is owed: it is of a Bind that was forwarded to its connection, which was chosen for it; the
/// client left the exchange before a Bind of it was answered for good; and the Bind doesn't hold the connection, nor did when
/// this went down for an unfinished exchange.
pub fn a_leave_that_comes_to_nothing_is_owed()
    ensures { BindIdlesAreOwed }
{
    part_spec::a_fit_list_begins_with_all_of_it();
    leave_laws::a_leave_that_comes_to_nothing_is_of_a_client_that_left();
    caused_laws::a_bind_connection_says_what_the_family_says();
    a_leave_is_given_once();
}

/// So each Drop and each Leave that comes to nothing was given, and finds nothing to end.
pub fn each_idle_is_owed()
    ensures { EachIdleIsOwed }
{
    leave_laws::a_drop_that_comes_to_nothing_is_owed();
    a_leave_that_comes_to_nothing_is_owed();
}
