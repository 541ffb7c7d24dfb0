//! What a connection gives the clients of its operations, in number.
//!
//! The function has an empty body, and its contract is a law of joined lists. A layer above may rely on it.
#![tactic(auto)]

ghost use Rattle.given_laws.specs.Laws.{GivenAsTold};

/// No connection gives more letters for an operation than the lists say that its client was given: one for each answer up to the
/// last one, one for its loss or where it was missed, none where it was dropped; and of a success that is kept back the one
/// that settles it.
pub fn a_connection_gives_no_more_letters_than_are_told()
    ensures { GivenAsTold }
{
    fifo_laws::an_operation_is_sent_once();
    joined_laws::shares_and_links_give_what_is_said_of_several_lists();
    carried_laws::a_forward_says_of_its_operation_what_the_family_says();
}
