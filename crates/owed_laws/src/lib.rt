//! How many letters come too late for an operation: laws of families whose lists turns made.
//!
//! Such letters and what the client got are no more than its one connection gave for the operation, by how it ended; and this is
//! no more than the lists say that the client was given. Each function has an empty body, and its contract is a law. A layer
//! above may rely on them for each such family.
#![tactic(auto)]

ghost use Rattle.owed_laws.specs.Laws.{LatesAreOwed, LatesAreTaken};

/// Where a letter for an operation came too late, such letters and what its client got, but for the answer to a Cancel
/// that ended the operation, are no more than one connection gave for it: the one where it was sent, or missed.
pub fn late_letters_and_answers_were_given()
    ensures { LatesAreTaken }
{
    late_laws::a_late_letter_is_of_its_clients_own();
    identity_laws::a_client_is_who_the_family_says();
    sent_laws::a_request_is_sent_where_its_first_check_let_it_go();
}

/// So each letter that comes too late was given, for an operation of its client's own: such letters and what the client got, but
/// for that answer, are no more than the lists say that it was given.
pub fn late_letters_are_owed()
    ensures { LatesAreOwed }
{
    late_laws::a_late_letter_is_of_its_clients_own();
    given_laws::a_connection_gives_no_more_letters_than_are_told();
    late_letters_and_answers_were_given();
}
