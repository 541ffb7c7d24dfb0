//! What clients told connections of pauses, and what connections made of it.
//!
//! Each function has an empty body, and its contract is a law of families of lists, whatever made them: the shares and the
//! links between the lists are all it rests on.
#![tactic(auto)]

ghost use Rattle.pause_laws.specs.Laws.{PausesAreOwed, PausesAreSaid, PausesSettle};

/// A client's state says what it pauses as its list does, at its end.
pub fn a_client_pauses_what_its_list_says()
    ensures { PausesAreSaid }
{}

/// A connection pauses for a client, and goes on, at most as often as the client told it: each letter that it took was given.
pub fn a_connection_pauses_as_clients_told_it()
    ensures { PausesAreOwed }
{}

/// Where nothing waits, a regular connection that isn't down holds exactly where a client that isn't gone has paused it.
pub fn pauses_settle_where_nothing_waits()
    ensures { PausesSettle }
{}
