//! What crosses between a client and a connection: what a Forward says of its operation, and what an answer tells of the
//! client's identity.
//!
//! Each function has an empty body, and its contract is a law, for families of lists, whatever made them; the second asks
//! that turns made the lists of clients and connections.
#![tactic(auto)]

ghost use Rattle.carried_laws.specs.Laws.{ForwardsAreRight, IdentitiesAreRight};

/// Each Forward that a part took says of its operation what the family says: of what kind its request is, and whether the
/// identity behind its success is asked for.
pub fn a_forward_says_of_its_operation_what_the_family_says()
    ensures { ForwardsAreRight }
{}

/// Each success of a Bind whose identity is asked for comes to its client with the identity that the Bind's connection was
/// told: that of the answer which settles the Bind.
pub fn an_answer_tells_the_identity_that_its_connection_was_told()
    ensures { IdentitiesAreRight }
{
    fifo_laws::an_operation_is_sent_once();
}
